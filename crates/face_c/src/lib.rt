// The calls of `face` under the names that programs in C and Rust link.
#![tactic(auto)]

ghost use Rattle.table.specs.Calls.{Judged};
ghost use Rattle.session.specs.Calls.{BeginsSession};
ghost use Rattle.step_meaning.specs.Promises.{Stepped, Finished};
ghost use Rattle.join_meaning.specs.Promises.{Joins};

use join::TAPE;
use join_shelf::SHELF;
use session_bytes::SIZE;
use step::WORK;

#[unsafe(no_mangle)]
pub extern "C" fn jermanuts_check(file: &[u8]) -> u32
    ensures { Judged file.now result }
{
    face::jermanuts_check(file)
}

#[unsafe(no_mangle)]
pub extern "C" fn jermanuts_begin(file: &[u8], session: &mut [u8; SIZE], states: &mut u32) -> u32
    ensures { BeginsSession file.now session.old result states.new session.new }
{
    face::jermanuts_begin(file, session, states)
}

#[unsafe(no_mangle)]
pub extern "C" fn jermanuts_step(
    file: &[u8],
    session: &mut [u8; SIZE],
    symbol: u8,
    out: &mut [u8],
    count: &mut usize,
) -> u32
    ensures { Stepped file.now session.old symbol out.old result count.new
        session.new out.new }
{
    face::jermanuts_step(file, session, symbol, out, count)
}

#[unsafe(no_mangle)]
pub extern "C" fn jermanuts_step_in(
    file: &[u8],
    session: &mut [u8; SIZE],
    symbol: u8,
    out: &mut [u8],
    count: &mut usize,
    work: &mut [u8; WORK],
) -> u32
    ensures { Stepped file.now session.old symbol out.old result count.new
        session.new out.new }
{
    face::jermanuts_step_in(file, session, symbol, out, count, work)
}

#[unsafe(no_mangle)]
pub extern "C" fn jermanuts_finish(
    file: &[u8],
    session: &[u8; SIZE],
    out: &mut [u8],
    count: &mut usize,
) -> u32
    ensures { Finished file.now session.now out.old result count.new
        out.new }
{
    face::jermanuts_finish(file, session, out, count)
}

#[unsafe(no_mangle)]
pub extern "C" fn jermanuts_join(
    first: &[u8],
    second: &[u8],
    out: &mut [u8],
    which: &mut u32,
    count: &mut usize,
) -> u32
    ensures { Joins first.now second.now out.old result which.new count.new
        out.new }
{
    face::jermanuts_join(first, second, out, which, count)
}

#[unsafe(no_mangle)]
pub extern "C" fn jermanuts_join_in(
    first: &[u8],
    second: &[u8],
    out: &mut [u8],
    which: &mut u32,
    count: &mut usize,
    marks: &mut [u8; SHELF],
    rows: &mut [u8; SHELF],
    tape: &mut [u8; TAPE],
) -> u32
    ensures { Joins first.now second.now out.old result which.new count.new
        out.new }
{
    face::jermanuts_join_in(first, second, out, which, count, marks, rows, tape)
}
