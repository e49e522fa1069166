// Sessions: those that begin makes, those of G after some symbols, and one for each rule of soundness that it breaks.
use crate::lines::{having, say};
use crate::tables::{g, put, wide};
use numbers::{Refusal, number_of};
use session_bytes::SIZE;
use std::io;
use table_check::check;

pub(crate) fn all(rt: &impl Print) -> io::Result<()> {
    begins(rt)?;
    sound_sessions(rt)?;
    link_faults(rt)?;
    trail_faults(rt)?;
    piece_faults(rt)?;
    zero_faults(rt)
}

// The number for a session and its table.
pub(crate) fn judged(file: &[u8], session: &[u8; SIZE]) -> u64 {
    u64::from(number_of(&found(file, session)))
}

// Whether the table is good and the session sound for it.
fn found(file: &[u8], session: &[u8; SIZE]) -> Result<(), Refusal> {
    check(file)?;
    if session::sound(file, session) {
        Ok(())
    } else {
        Err(Refusal::BadSession)
    }
}

// What `begin` reports, and what it leaves of a session of 7s.
fn begun(rt: &impl Print, name: &[u8], file: &[u8]) -> io::Result<()> {
    let mut session = [7u8; SIZE];
    say(rt, name, opened(file, &mut session))?;
    say(rt, b"- its session", judged(file, &session))?;
    say(rt, b"- bytes still 7", having(&session, 7))
}

// The number of starting states.
pub(crate) fn opened(file: &[u8], session: &mut [u8; SIZE]) -> u64 {
    session::begin(file, session).unwrap_or(0) as u64
}

fn begins(rt: &impl Print) -> io::Result<()> {
    let mut file = g();
    begun(rt, b"begin: G", &file)?;
    put(&mut file, 284, b"\x0d");
    begun(rt, b"begin: three starting states", &file)?;
    put(&mut file, 284, b"\x00");
    begun(rt, b"begin: a bad table", &file)?;
    begun(rt, b"begin: 64 starting states", &wide())
}

// Depth, count and links of a session whose pieces are empty.
fn bare(rt: &impl Print, name: &[u8], links: &[u8]) -> io::Result<()> {
    let file = g();
    let mut session = [0u8; SIZE];
    put(&mut session, 0, links);
    say(rt, name, judged(&file, &session))
}

// G after 10: `K` or `N` waits over the pair that the call left.
pub(crate) fn opening() -> [u8; SIZE] {
    let mut session = [0u8; SIZE];
    put(&mut session, 0, b"\x01\x03");
    put(&mut session, 7, b"\x01\x01\x01\x00\x00\x01\x02\x01");
    put(&mut session, 324, b"\x01\x00\x01");
    put(&mut session, 962, b"K");
    put(&mut session, 1474, b"N");
    session
}

// That session with other bytes from a place on.
fn tried(rt: &impl Print, name: &[u8], at: usize, bytes: &[u8]) -> io::Result<()> {
    let file = g();
    let mut session = opening();
    put(&mut session, at, bytes);
    say(rt, name, judged(&file, &session))
}

// Two pairs at level 0 and three links on them, with `waiting` on the first: five bytes wait at most where it is three.
fn branched(rt: &impl Print, name: &[u8], waiting: &[u8], length: &[u8]) -> io::Result<()> {
    let mut session = [0u8; SIZE];
    put(&mut session, 0, b"\x01\x05\x00\x00\x00\x00\x00\x00\x01");
    put(
        &mut session,
        12,
        b"\x01\x01\x01\x00\x00\x01\x01\x01\x01\x00\x01\x02\x01",
    );
    put(&mut session, 322, length);
    put(&mut session, 324, b"\x01\x00\x02\x00\x00\x00\x01");
    put(&mut session, 450, waiting);
    put(&mut session, 962, b"b");
    put(&mut session, 1474, b"cc");
    put(&mut session, 2498, b"d");
    let file = g();
    say(rt, name, judged(&file, &session))
}

fn sound_sessions(rt: &impl Print) -> io::Result<()> {
    tried(rt, b"session: G after 10", 0, b"")?;
    let file = g();
    let mut session = opening();
    put(&mut session, 324, b"\x04\x00\x04");
    put(&mut session, 962, b"Kppp");
    put(&mut session, 1474, b"Nppp");
    say(rt, b"session: G after 10, 1, 1, 1", judged(&file, &session))?;
    bare(
        rt,
        b"session: one link on another",
        b"\x01\x02\x00\x00\x00\x00\x00\x01\x01\x01",
    )?;
    branched(rt, b"session: four bytes wait", b"aa", b"\x02")
}

fn link_faults(rt: &impl Print) -> io::Result<()> {
    bare(rt, b"links: none", b"")?;
    tried(rt, b"links: 65", 1, b"\x41")?;
    tried(rt, b"links: a state out of range", 13, b"\x04")?;
    tried(rt, b"links: a marker out of range", 14, b"\x02")?;
    tried(rt, b"links: no marker above level 0", 9, b"\x00")?;
    tried(rt, b"links: a marker at level 0", 4, b"\x01")?;
    tried(rt, b"links: one twice", 13, b"\x01")?;
    tried(rt, b"links: falling", 8, b"\x03")
}

fn trail_faults(rt: &impl Print) -> io::Result<()> {
    tall(rt, b"trails: at the depth cap", b"\x04\x05", b"")?;
    tall(
        rt,
        b"trails: over the depth cap",
        b"\x05\x06",
        b"\x05\x00\x01\x00\x01",
    )?;
    bare(
        rt,
        b"trails: a link above the depth",
        b"\x00\x02\x00\x00\x00\x00\x00\x01\x01\x01",
    )?;
    bare(
        rt,
        b"trails: nothing stands on a link",
        b"\x01\x03\x00\x00\x00\x00\x00\x00\x01\x00\x00\x00\x01\x01\x01",
    )?;
    bare(
        rt,
        b"trails: a link on nothing",
        b"\x01\x03\x00\x00\x00\x00\x00\x01\x01\x01\x00\x00\x01\x01\x01\x01",
    )
}

// A link at each level to 4, each on the one before it, and perhaps one more.
fn tall(rt: &impl Print, name: &[u8], head: &[u8], last: &[u8]) -> io::Result<()> {
    let mut session = [0u8; SIZE];
    put(&mut session, 0, head);
    put(&mut session, 7, b"\x01\x00\x01\x00\x00\x02\x00\x01\x00\x01");
    put(
        &mut session,
        17,
        b"\x03\x00\x01\x00\x01\x04\x00\x01\x00\x01",
    );
    put(&mut session, 27, last);
    let file = g();
    say(rt, name, judged(&file, &session))
}

fn piece_faults(rt: &impl Print) -> io::Result<()> {
    tried(rt, b"pieces: five bytes wait on one link", 324, b"\x05")?;
    branched(rt, b"pieces: five bytes wait together", b"aaa", b"\x03")?;
    tried(rt, b"pieces: a common first byte on a pair", 1474, b"K")?;
    tried(rt, b"pieces: a common first byte at level 0", 322, b"\x01")?;
    tried(
        rt,
        b"pieces: longer than there is room for",
        324,
        b"\x01\x02",
    )
}

fn zero_faults(rt: &impl Print) -> io::Result<()> {
    tried(rt, b"zeros: below level 0", 5, b"\x01")?;
    tried(rt, b"zeros: a link not used", 17, b"\x01")?;
    tried(rt, b"zeros: the last link", 321, b"\x01")?;
    tried(rt, b"zeros: a length not used", 328, b"\x01")?;
    tried(rt, b"zeros: behind a piece", 963, b"\x01")?;
    tried(rt, b"zeros: a piece not used", 1986, b"\x01")?;
    tried(rt, b"zeros: the last byte", 33217, b"\x01")
}
