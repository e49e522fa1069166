// Joins: the worked one, refusals in their order, what is nested and what is not, and rows in order and once each.
ghost use Rattle.std.specs.Prelude.{◌≤◌};

use crate::checks::number;
use crate::lines::{having, say, told};
use crate::pairs::{LARGEST, first_hop, inner, outer, part, second_hop, whole};
use crate::readers::list;
use crate::sessions::opened;
use crate::steps::message;
use crate::tables::put;
use join::Unjoined;
use numbers::Refusal;
use session_bytes::SIZE;
use std::io;

// A room of dots with more than the largest file.
pub const ROOM: usize = 6500;

pub(crate) fn all(rt: &impl Print) -> io::Result<()> {
    worked(rt)?;
    worked_otherwise(rt)?;
    bad_tables(rt)?;
    not_nested(rt)?;
    allowed(rt)?;
    refusals_in_order(rt)?;
    readings(rt)?;
    marks(rt)
}

// The file that was written.
fn written(out: &[u8; ROOM], joined: Result<usize, Unjoined>) -> &[u8] {
    part(out, joined.unwrap_or(0))
}

// The number, the byte count, how many dots behind the file are dots no more; what `check` says of a file that was
// written, and which table is bad.
fn tell(
    rt: &impl Print,
    name: &[u8],
    joined: Result<usize, Unjoined>,
    out: &[u8; ROOM],
) -> io::Result<()> {
    rt.write_all(name)?;
    rt.write_all(b": ")?;
    told(rt, joined.map_err(Refusal::from))?;
    print!(rt; "{}", changed(out, joined.unwrap_or(0)))?;
    match joined {
        Ok(count) => print!(rt; " check {}", number(part(out, count)))?,
        Err(unjoined) if unjoined.table() != 0 => print!(rt; " table {}", unjoined.table())?,
        Err(_) => (),
    }
    rt.write_all(b"\n")
}

// How many bytes from a place on are no dots.
fn changed(out: &[u8], from: usize) -> u64 {
    match out.get(from..) {
        Some(rest) => rest.len() as u64 - having(rest, 46),
        None => 0,
    }
}

// A join with so much room.
pub(crate) fn tried(
    rt: &impl Print,
    name: &[u8],
    first: &[u8; LARGEST],
    second: &[u8; LARGEST],
    room: usize,
) -> io::Result<()>
    requires { room ≤ 6500 }
{
    let mut out = [46u8; ROOM];
    let joined = join::join(whole(first), whole(second), &mut out[..room]);
    tell(rt, name, joined, &out)
}

// A join, and the rows that it gives.
pub(crate) fn shown(
    rt: &impl Print,
    name: &[u8],
    first: &[u8; LARGEST],
    second: &[u8; LARGEST],
) -> io::Result<()> {
    let mut out = [46u8; ROOM];
    let joined = join::join(whole(first), whole(second), &mut out);
    tell(rt, name, joined, &out)?;
    list(rt, written(&out, joined))
}

// Bytes in hex, 20 to a line.
fn dump(rt: &impl Print, bytes: &[u8]) -> io::Result<()> {
    for (i, byte) in bytes.iter().enumerate() {
        print!(rt; "{byte:02x}")?;
        if i % 20 == 19 {
            rt.write_all(b"\n")?;
        }
    }
    Ok(())
}

// The worked join: its file, and `(())` through it.
fn worked(rt: &impl Print) -> io::Result<()> {
    let first = first_hop(b"(\x00\x00\x01\x02)\x00\x00\x01\x02", b"[{}]");
    let second = second_hop();
    let mut out = [46u8; ROOM];
    let joined = join::join(whole(&first), whole(&second), &mut out);
    tell(rt, b"the worked join", joined, &out)?;
    let file = written(&out, joined);
    dump(rt, file)?;
    let mut session = [0u8; SIZE];
    say(rt, b"(()) through it", opened(file, &mut session))?;
    message(rt, file, &mut session, b"(())")?;
    tried(rt, b"room for all", &first, &second, 320)?;
    tried(rt, b"room for one byte less", &first, &second, 319)
}

// With `}` for `}]`; and with `<` that writes `{[` and `>` that writes `]}` too.
fn worked_otherwise(rt: &impl Print) -> io::Result<()> {
    let second = second_hop();
    let short = first_hop(b"(\x00\x00\x01\x02)\x00\x00\x01\x01", b"[{}");
    tried(rt, b"} for }]", &short, &second, ROOM)?;
    let both = outer(
        b"\x01\x01\x04\x04",
        b"(\x00\x00\x01\x02)\x00\x00\x01\x02<\x00\x00\x01\x02>\x00\x00\x01\x02",
        b"[{}]{[]}",
    );
    shown(rt, b"< and > too", &both, &second)
}

fn bad_tables(rt: &impl Print) -> io::Result<()> {
    let first = first_hop(b"", b"");
    let second = second_hop();
    let mut bad = second_hop();
    put(&mut bad, 0, b"\x02");
    tried(rt, b"the first is bad", &bad, &second, ROOM)?;
    tried(rt, b"the second is bad", &first, &bad, ROOM)?;
    tried(rt, b"both are bad", &bad, &bad, ROOM)
}

// A first table with two markers, joined with the second of the worked join.
fn nested(rt: &impl Print, name: &[u8], rows: &[u8], words: &[u8]) -> io::Result<()> {
    let first = outer(b"\x01\x02\x04\x04", rows, words);
    shown(rt, name, &first, &second_hop())
}

fn not_nested(rt: &impl Print) -> io::Result<()> {
    nested(rt, b"a byte of class 0", b"x\x00\x00\x00\x02", b"a!")?;
    nested(
        rt,
        b"an internal word left open",
        b"x\x00\x00\x00\x01",
        b"[",
    )?;
    nested(
        rt,
        b"an internal word that closes nothing",
        b"x\x00\x00\x00\x02",
        b"][",
    )?;
    nested(
        rt,
        b"a call word left open by the return word",
        b"(\x00\x00\x01\x02)\x00\x00\x01\x01",
        b"[{}",
    )?;
    nested(
        rt,
        b"a return word that closes too much",
        b"(\x00\x00\x01\x01)\x00\x00\x01\x02",
        b"[}]",
    )
}

// What looks not nested, and is: the last is nested by its classes, and no run of the second reads it.
fn allowed(rt: &impl Print) -> io::Result<()> {
    nested(
        rt,
        b"a call word that the return word closes",
        b"(\x00\x00\x01\x01)\x00\x00\x01\x01",
        b"[]",
    )?;
    nested(
        rt,
        b"a call word with no return",
        b"(\x00\x00\x01\x01",
        b"[",
    )?;
    nested(
        rt,
        b"a return with another marker",
        b"(\x00\x00\x01\x01)\x00\x00\x02\x00",
        b"[",
    )?;
    nested(
        rt,
        b"markers that do not match",
        b"x\x00\x00\x00\x02",
        b"[}",
    )
}

// Each with no room: a bad table; not nested and too large; too large; and none of these.
fn refusals_in_order(rt: &impl Print) -> io::Result<()> {
    let second = second_hop();
    let row = b"x\x00\x00\x00\x11";
    let mut first = outer(b"\x01\x00\x04\x04", row, b"aaaaaaaaaaaaaaaa[");
    tried(rt, b"not nested and too large", &first, &second, 0)?;
    put(&mut first, 0, b"\x02");
    tried(rt, b"a bad table", &first, &second, 0)?;
    first = outer(b"\x01\x00\x04\x04", row, b"aaaaaaaaaaaaaaaaa");
    tried(rt, b"too large", &first, &second, 0)?;
    first = outer(b"\x01\x00\x04\x04", b"x\x00\x00\x00\x01", b"a");
    tried(rt, b"no room", &first, &second, 0)
}

// Internal `x` writes `ab`, which the second reads in two ways: to one row, and to rows that it finds out of order.
fn readings(rt: &impl Print) -> io::Result<()> {
    let first = outer(b"\x02\x00\x04\x04", b"x\x00\x01\x00\x02", b"ab");
    let once = inner(
        b"\x03\x00\x04\x04",
        b"a\x00\x01\x00\x01a\x00\x02\x00\x02b\x01\x00\x00\x02b\x02\x00\x00\x01",
        b"ppqqrr",
    );
    shown(rt, b"two readings of one row", &first, &once)?;
    let falling = inner(
        b"\x03\x00\x04\x04",
        b"a\x00\x01\x00\x01a\x00\x02\x00\x01b\x01\x00\x00\x00b\x01\x02\x00\x00b\x02\x00\x00\x00b\x02\x01\x00\x00",
        b"zy",
    );
    shown(rt, b"readings out of order", &first, &falling)
}

// A return row is read from the list of each mark; marks are numbered by their lists, a beginning first.
fn marks(rt: &impl Print) -> io::Result<()> {
    let first = outer(
        b"\x01\x01\x04\x04",
        b"(\x00\x00\x01\x01)\x00\x00\x01\x01",
        b"[]",
    );
    let forked = inner(
        b"\x01\x02\x04\x04",
        b"[\x00\x00\x01\x01[\x00\x00\x02\x01]\x00\x00\x01\x01]\x00\x00\x02\x01",
        b"abcd",
    );
    shown(rt, b"a return from the popped list", &first, &forked)?;
    let open = outer(
        b"\x01\x01\x04\x04",
        b"(\x00\x00\x01\x00(\x00\x00\x01\x01<\x00\x00\x01\x01<\x00\x00\x01\x02",
        b"{[[{",
    );
    let second = second_hop();
    shown(rt, b"lists in order", &open, &second)
}
