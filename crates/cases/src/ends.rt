// Ends: of G, of an unsound session and a bad table, and of runs of which all or some accept, with room and without.
ghost use Rattle.std.specs.Prelude.{◌≤◌};

use crate::lines::{say, told};
use crate::sessions::{judged, opened, opening};
use crate::steps::message;
use crate::tables::{fork, g, put};
use session_bytes::SIZE;
use std::io;

pub(crate) fn all(rt: &impl Print) -> io::Result<()> {
    ends_of_g(rt)?;
    refusals(rt)?;
    forks(rt)?;
    rest(rt)?;
    three(rt, b"three runs, none accepts", b"\x08", 4)?;
    three(rt, b"three runs, one accepts", b"\x01", 4)?;
    three(rt, b"three runs, two accept", b"\x06", 4)?;
    three(rt, b"three runs, two that differ accept", b"\x05", 0)
}

// The end, with so much room of four dots: the number, the byte count, and the dots.
fn asked(rt: &impl Print, file: &[u8], session: &[u8; SIZE], room: usize) -> io::Result<()>
    requires { room ≤ 4 }
{
    let mut out = [46u8; 4];
    let answer = finish::finish(file, session, &mut out[..room]);
    rt.write_all(b"finish: ")?;
    told(rt, answer)?;
    rt.write_all(&out)?;
    rt.write_all(b"\n")
}

// A message, and the end.
fn closed(
    rt: &impl Print,
    file: &[u8],
    session: &mut [u8; SIZE],
    symbols: &[u8],
    room: usize,
) -> io::Result<()>
    requires { room ≤ 4 }
{
    message(rt, file, session, symbols)?;
    asked(rt, file, session, room)
}

// At once, above depth 0, and where all is sent, which takes no room.
fn ends_of_g(rt: &impl Print) -> io::Result<()> {
    let file = g();
    let mut session = [0u8; SIZE];
    say(rt, b"ends of G", opened(&file, &mut session))?;
    closed(rt, &file, &mut session, b"", 4)?;
    closed(rt, &file, &mut session, b"\x0a", 4)?;
    closed(rt, &file, &mut session, b"\x01\x0b", 0)
}

// A session that is not sound, and then a table that is not good either.
fn refusals(rt: &impl Print) -> io::Result<()> {
    let mut file = g();
    let mut session = opening();
    put(&mut session, 33217, b"\x01");
    say(
        rt,
        b"the end of an unsound session",
        judged(&file, &session),
    )?;
    asked(rt, &file, &session, 4)?;
    put(&mut file, 1, b"\x02");
    say(rt, b"and of a bad table", judged(&file, &session))?;
    asked(rt, &file, &session, 4)
}

fn forks(rt: &impl Print) -> io::Result<()> {
    forked(rt, b"a and b", b"\x02\x00\x01")?;
    forked(rt, b"a and ab", b"\x01\x00\x02")?;
    forked(rt, b"a and a", b"\x00\x00\x01")
}

fn forked(rt: &impl Print, name: &[u8], word: &[u8]) -> io::Result<()> {
    let file = fork(word);
    let mut session = [0u8; SIZE];
    say(rt, name, opened(&file, &mut session))?;
    closed(rt, &file, &mut session, b"\x01", 4)
}

// G with return 11 from 2 to 0 in place of return 12: `Kp` waits in a final state, `Np` in another, and a further call
// shows that the end left both.
fn rest(rt: &impl Print) -> io::Result<()> {
    let mut file = g();
    put(&mut file, 340, b"\x0b\x02\x00");
    let mut session = [0u8; SIZE];
    say(rt, b"Kp or Np", opened(&file, &mut session))?;
    closed(rt, &file, &mut session, b"\x0a\x01\x0b", 1)?;
    asked(rt, &file, &session, 2)?;
    asked(rt, &file, &session, 4)?;
    message(rt, &file, &mut session, b"\x0a")
}

// Three runs of G: `N` waits in 0, `Kp` in 1 and in 2.
fn runs() -> [u8; SIZE] {
    let mut session = [0u8; SIZE];
    put(&mut session, 0, b"\x00\x03");
    put(&mut session, 8, b"\x01\x00\x00\x00\x00\x02");
    put(&mut session, 322, b"\x01\x00\x02\x00\x02");
    put(&mut session, 450, b"N");
    put(&mut session, 962, b"Kp");
    put(&mut session, 1474, b"Kp");
    session
}

// Their end where G has other final states.
fn three(rt: &impl Print, name: &[u8], finals: &[u8], room: usize) -> io::Result<()>
    requires { room ≤ 4 }
{
    let mut file = g();
    put(&mut file, 292, finals);
    let session = runs();
    say(rt, name, judged(&file, &session))?;
    asked(rt, &file, &session, room)
}
