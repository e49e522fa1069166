// What `step` and `finish` answer, told by their lines.
ghost use Rattle.std.specs.Prelude.{◌+◌, ◌*◌, ◌≤◌, length};
ghost use Rattle.rewrite_lines.specs.Calls.{Told, EndTold};

use crate::text::{put_ending, put_line};
use numbers::number_of;
use session_bytes::SIZE;
use std::ops::ControlFlow;
use step::WORK;

// Gives a symbol to `step`, and puts its line. Answers the place after it, and goes on where the symbol was taken.
pub fn put_symbol(
    file: &[u8],
    session: &mut [u8; SIZE],
    symbol: u8,
    out: &mut [u8],
    work: &mut [u8; WORK],
    place: u64,
    text: &mut [u8],
    at: usize,
) -> ControlFlow<usize, usize>
    requires { at + 2 * length out.old + 52 ≤ length text.old }
    ensures { Told file.now session.old symbol out.old place text.old at result
        session.new out.new text.new }
{
    let answer = step::step_in(file, session, symbol, out, work);
    let number = number_of(&answer);
    let depth = links::depth(session);
    let sent = &out[..answer.unwrap_or(0)];
    let next = put_line(text, at, place, symbol, number, depth, sent);
    match answer {
        Ok(_) => ControlFlow::Continue(next),
        Err(_) => ControlFlow::Break(next),
    }
}

// Asks `finish`, and puts its line. Answers the place after it.
pub fn put_end(
    file: &[u8],
    session: &[u8; SIZE],
    out: &mut [u8],
    text: &mut [u8],
    at: usize,
) -> usize
    requires { at + 2 * length out.old + 10 ≤ length text.old }
    ensures { EndTold file.now session.now out.old text.old at result
        out.new text.new }
{
    let answer = finish::finish(file, session, out);
    put_ending(text, at, number_of(&answer), &out[..answer.unwrap_or(0)])
}
