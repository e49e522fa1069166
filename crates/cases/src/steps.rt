// Steps: of G, of a table whose runs clash, and of one with 64 links and with a link more.
ghost use Rattle.std.specs.Prelude.{◌≤◌};

use crate::lines::{held, say, told};
use crate::sessions::{judged, opened, opening};
use crate::tables::{crowd, g, larger_crowd, put};
use session_bytes::SIZE;
use std::io;

pub(crate) fn all(rt: &impl Print) -> io::Result<()> {
    steps_of_g(rt)?;
    refusals_of_g(rt)?;
    unsound(rt)?;
    conflict(rt)?;
    crowds(rt)
}

// One symbol, with so much room of four dots: the number, the byte count, depth and links after it, and the dots.
fn took(
    rt: &impl Print,
    file: &[u8],
    session: &mut [u8; SIZE],
    symbol: u8,
    room: usize,
) -> io::Result<()>
    requires { room ≤ 4 }
{
    let mut out = [46u8; 4];
    let answer = step::step(file, session, symbol, &mut out[..room]);
    print!(rt; "step {symbol}: ")?;
    told(rt, answer)?;
    held(rt, session)?;
    rt.write_all(&out)?;
    rt.write_all(b"\n")
}

// Symbol after symbol, with all the room.
pub(crate) fn message(
    rt: &impl Print,
    file: &[u8],
    session: &mut [u8; SIZE],
    symbols: &[u8],
) -> io::Result<()> {
    for symbol in symbols {
        took(rt, file, session, *symbol, 4)?;
    }
    Ok(())
}

fn steps_of_g(rt: &impl Print) -> io::Result<()> {
    let file = g();
    let mut session = [0u8; SIZE];
    say(rt, b"steps of G", opened(&file, &mut session))?;
    took(rt, &file, &mut session, 10, 0)?;
    took(rt, &file, &mut session, 10, 1)?;
    message(rt, &file, &mut session, b"\x01\x01\x01\x01\x0c")
}

fn refusals_of_g(rt: &impl Print) -> io::Result<()> {
    let mut file = g();
    let mut session = [0u8; SIZE];
    say(rt, b"refusals of G", opened(&file, &mut session))?;
    message(rt, &file, &mut session, b"\x07\x0b\x01\x0a\x0a")?;
    put(&mut file, 3, b"\x01");
    message(rt, &file, &mut session, b"\x0a")?;
    put(&mut file, 1, b"\x02");
    message(rt, &file, &mut session, b"\x01")
}

// G after 10, with a byte in a place not used.
fn unsound(rt: &impl Print) -> io::Result<()> {
    let file = g();
    let mut session = opening();
    put(&mut session, 33217, b"\x01");
    say(rt, b"an unsound session", judged(&file, &session))?;
    message(rt, &file, &mut session, b"\x01")
}

// G with `ON` leading to 1 as `OK` does: one trail, two outputs.
fn conflict(rt: &impl Print) -> io::Result<()> {
    let mut file = g();
    put(&mut file, 326, b"\x01");
    let mut session = [0u8; SIZE];
    say(rt, b"a conflict", opened(&file, &mut session))?;
    message(rt, &file, &mut session, b"\x0a")
}

fn crowds(rt: &impl Print) -> io::Result<()> {
    let file = crowd();
    let mut session = [0u8; SIZE];
    say(rt, b"a crowd", opened(&file, &mut session))?;
    message(rt, &file, &mut session, b"\x0a\x0a")?;
    let larger = larger_crowd();
    say(rt, b"one row more", opened(&larger, &mut session))?;
    message(rt, &larger, &mut session, b"\x0a")
}
