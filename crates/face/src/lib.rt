// The calls for programs in C and Rust, which `face_c` exports: each answers the scope's number, and what else a call
// gives is written where the caller says.
#![tactic(auto)]

ghost use Rattle.std.specs.Prelude.{◌≡◌};
ghost use Rattle.numbers.specs.Numbers.{number_of, count_of};
ghost use Rattle.join.specs.Calls.{joined_number, blamed};
ghost use Rattle.table.specs.Calls.{Judged};
ghost use Rattle.session.specs.Calls.{BeginsSession};
ghost use Rattle.step_meaning.specs.Promises.{Stepped, Finished};
ghost use Rattle.join_meaning.specs.Promises.{Joins};

use join::{TAPE, Unjoined};
use join_shelf::SHELF;
use numbers::{Refusal, number_of};
use session_bytes::SIZE;
use step::WORK;

// The number of an answer; its count is written where the caller says.
fn told(answer: Result<usize, Refusal>, count: &mut usize) -> u32
    ensures { (result ≡ number_of answer) × (count.new ≡ count_of answer) }
{
    *count = answer.unwrap_or(0);
    number_of(&answer)
}

// The same of joining, and which table is bad.
fn told_joined(answer: Result<usize, Unjoined>, which: &mut u32, count: &mut usize) -> u32
    ensures number { result ≡ joined_number answer }
    ensures told { (which.new ≡ blamed answer) × (count.new ≡ count_of answer) }
{
    *count = answer.unwrap_or(0);
    match answer {
        Ok(_) => {
            *which = 0;
            0
        }
        Err(unjoined) => {
            *which = unjoined.table();
            u32::from(Refusal::from(unjoined))
        }
    }
}

pub fn jermanuts_check(file: &[u8]) -> u32
    ensures { Judged file.now result }
{
    number_of(&table_check::check(file))
}

pub fn jermanuts_begin(file: &[u8], session: &mut [u8; SIZE], states: &mut u32) -> u32
    ensures { BeginsSession file.now session.old result states.new session.new }
{
    let answer = session::begin(file, session);
    *states = answer.unwrap_or(0) as u32;
    number_of(&answer)
}

pub fn jermanuts_step(
    file: &[u8],
    session: &mut [u8; SIZE],
    symbol: u8,
    out: &mut [u8],
    count: &mut usize,
) -> u32
    ensures { Stepped file.now session.old symbol out.old result count.new
        session.new out.new }
{
    told(step::step(file, session, symbol, out), count)
}

pub fn jermanuts_step_in(
    file: &[u8],
    session: &mut [u8; SIZE],
    symbol: u8,
    out: &mut [u8],
    count: &mut usize,
    work: &mut [u8; WORK],
) -> u32
    ensures { Stepped file.now session.old symbol out.old result count.new
        session.new out.new }
{
    told(step::step_in(file, session, symbol, out, work), count)
}

pub fn jermanuts_finish(file: &[u8], session: &[u8; SIZE], out: &mut [u8], count: &mut usize) -> u32
    ensures { Finished file.now session.now out.old result count.new
        out.new }
{
    told(finish::finish(file, session, out), count)
}

pub fn jermanuts_join(
    first: &[u8],
    second: &[u8],
    out: &mut [u8],
    which: &mut u32,
    count: &mut usize,
) -> u32
    ensures { Joins first.now second.now out.old result which.new count.new
        out.new }
{
    told_joined(join::join(first, second, out), which, count)
}

pub fn jermanuts_join_in(
    first: &[u8],
    second: &[u8],
    out: &mut [u8],
    which: &mut u32,
    count: &mut usize,
    marks: &mut [u8; SHELF],
    rows: &mut [u8; SHELF],
    tape: &mut [u8; TAPE],
) -> u32
    ensures { Joins first.now second.now out.old result which.new count.new
        out.new }
{
    told_joined(
        join::join_in(first, second, out, marks, rows, tape),
        which,
        count,
    )
}
