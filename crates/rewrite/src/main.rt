// The program: a table length, a table and symbols on standard input; on standard output a line for each symbol that is
// tried, the first refused one's the last, and then finish's. Where a read or a write fails, standard error says so and
// nothing more is printed: the end of the input alone is the end of a message.
#![tactic(auto)]

ghost use Rattle.std.specs.Prelude.{◌+◌, ◌^◌, ◌≤◌, ◌<◌, length, IfSome};
ghost use Rattle.rewrite_lines.specs.Calls.{next_of};

use rewrite_lines::{put_end, put_no_table, put_symbol};
use session_bytes::SIZE;
use std::io::Read;
use std::ops::ControlFlow;
use step::WORK;

// No good table is longer: 28 bytes of head and contents, 256 of classes, 16 of sets, 2,048 of rows, 4,096 of words.
const LARGEST: usize = 6444;

// The output that is lent, in bytes.
const OUT: usize = 1024;

// How many symbols are read at once, and how many bytes their lines can take: 52, and two for each byte of the output.
const BLOCK: usize = 64;

const TEXT: usize = 134400;

// A proved loop has to end, and nothing says that the input does: so it ends at a place that no message comes to.
const MOST: u64 = 0x8000_0000_0000_0000;

// A message: its table, and the rooms for what it sends. Its session and the room of a step go beside it: pieces are copied
// from one to the other, which is fast only where the compiler sees that they are two.
#[derive(Drop)]
struct Message<'a> {
    file: &'a [u8],
    out: [u8; OUT],
    text: [u8; TEXT],
}

fn main(rt: HostRuntime) {
    let mut input = rt.stdin();
    let mut head = [0u8; 2];
    let Some(count) = fill(&rt, &mut input, &mut head) else {
        return;
    };
    let length = words::load_two(&head, 0);
    if count < 2 || LARGEST < length {
        no_table(&rt);
        return;
    }
    let mut file = [0u8; LARGEST];
    on_length(&rt, &mut input, &mut file[..length]);
}

// Reads a table as long as `file`.
fn on_length(rt: &(impl Print + Eprint), input: &mut impl Read, file: &mut [u8]) {
    let Some(count) = fill(rt, input, file) else {
        return;
    };
    if count < file.len() {
        no_table(rt);
        return;
    }
    on_table(rt, input, file);
}

// One read, which waits only where nothing has come: how many bytes came, 0 at the end of the input. None where it
// failed, which standard error is told.
fn read_some(rt: &impl Eprint, input: &mut impl Read, buf: &mut [u8]) -> Option<usize>
    ensures { IfSome result (λ n. n ≤ length buf.old) }
{
    match input.read(buf) {
        Ok(count) => Some(count),
        Err(_) => {
            let _ = rt.eprintln("rewrite: reading failed");
            None
        }
    }
}

// Reads until `buf` is full or the input ends. None where a read failed.
fn fill(rt: &impl Eprint, input: &mut impl Read, buf: &mut [u8]) -> Option<usize>
    ensures { IfSome result (λ n. n ≤ length buf.old) }
{
    let mut done: usize = 0;
    while done < buf.len() {
        let count = read_some(rt, input, &mut buf[done..])?;
        if count == 0 {
            break;
        }
        done += count;
    }
    Some(done)
}

fn no_table(rt: &(impl Print + Eprint)) {
    let mut text = [0u8; 8];
    let end = put_no_table(&mut text, 0);
    say(rt, &text[..end]);
}

// Writes text. None where that failed, which standard error is told.
fn say(rt: &(impl Print + Eprint), text: &[u8]) -> Option<()> {
    if rt.write_all(text).is_err() {
        let _ = rt.eprintln("rewrite: writing failed");
        return None;
    }
    Some(())
}

fn on_table(rt: &(impl Print + Eprint), input: &mut impl Read, file: &[u8]) {
    let mut session = [0; SIZE];
    let mut work = [0; WORK];
    let mut message = Message {
        file,
        out: [0; OUT],
        text: [0; TEXT],
    };
    if session::begin(file, &mut session).is_err() {
        no_table(rt);
        return;
    }
    let mut place: u64 = 0;
    while place < MOST {
        let Some(taken) = on_input(rt, input, &mut message, &mut session, &mut work, place) else {
            return;
        };
        place += taken as u64;
    }
}

// Reads symbols, and writes their lines before it returns. Answers how many were taken, none where the message is over.
fn on_input(
    rt: &(impl Print + Eprint),
    input: &mut impl Read,
    message: &mut Message,
    session: &mut [u8; SIZE],
    work: &mut [u8; WORK],
    place: u64,
) -> Option<usize>
    requires { place + 65 < 2 ^ 64 }
    ensures { IfSome result (λ n. (0 < n) × (n ≤ 64)) }
{
    let mut block = [0u8; BLOCK];
    let n = read_some(rt, input, &mut block)?;
    if n == 0 {
        on_end(rt, message, session);
        return None;
    }
    on_symbols(rt, message, session, work, &block[..n], place)?;
    Some(n)
}

// Writes the lines of symbols that were read. None where the message is over.
fn on_symbols(
    rt: &(impl Print + Eprint),
    message: &mut Message,
    session: &mut [u8; SIZE],
    work: &mut [u8; WORK],
    symbols: &[u8],
    place: u64,
) -> Option<()>
    requires { (length symbols.now ≤ 64) × (place + 65 < 2 ^ 64) }
{
    match put_symbols(message, session, work, symbols, place) {
        ControlFlow::Continue(end) => say(rt, &message.text[..end]),
        ControlFlow::Break(end) => {
            say(rt, &message.text[..end]);
            None
        }
    }
}

// Puts their lines, up to the first that is refused. Answers the place after them.
fn put_symbols(
    message: &mut Message,
    session: &mut [u8; SIZE],
    work: &mut [u8; WORK],
    symbols: &[u8],
    place: u64,
) -> ControlFlow<usize, usize>
    requires { (length symbols.now ≤ 64) × (place + 65 < 2 ^ 64) }
    ensures { next_of result ≤ 134400 }
{
    let mut at = 0;
    for (i, symbol) in symbols.iter().enumerate() {
        at = put_symbol(
            message.file,
            session,
            *symbol,
            &mut message.out,
            work,
            place + i as u64 + 1,
            &mut message.text,
            at,
        )?;
    }
    ControlFlow::Continue(at)
}

// The end of the message.
fn on_end(rt: &(impl Print + Eprint), message: &mut Message, session: &[u8; SIZE]) {
    let end = put_end(
        message.file,
        session,
        &mut message.out,
        &mut message.text,
        0,
    );
    say(rt, &message.text[..end]);
}
