// What is printed: a name with its number, and what a call gave and left.
ghost use Rattle.std.specs.Prelude.{◌≤◌, length};

use numbers::{Refusal, number_of};
use session_bytes::SIZE;
use std::io;

// One line: what was tried, and the number.
pub(crate) fn say(rt: &impl Print, name: &[u8], n: u64) -> io::Result<()> {
    rt.write_all(name)?;
    println!(rt; ": {n}")
}

// The number and the byte count that a call gave.
pub(crate) fn told(rt: &impl Print, answer: Result<usize, Refusal>) -> io::Result<()> {
    print!(rt; "{} {} ", number_of(&answer), answer.unwrap_or(0))
}

// The depth of a session, and how many links it has.
pub(crate) fn held(rt: &impl Print, session: &[u8; SIZE]) -> io::Result<()> {
    print!(rt; "{} {} ", links::depth(session), links::count(session))
}

// How many bytes have a value.
pub(crate) fn having(bytes: &[u8], value: u8) -> u64
    ensures { result ≤ length bytes.now }
{
    bytes.iter().filter(|byte| **byte == value).count() as u64
}
