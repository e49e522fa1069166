// One step: the tests in their order, each after the work that it needs. The session and the output are written only
// once all have passed.
ghost use Rattle.step_meaning.specs.Promises.{Proper, Answered};
ghost use Rattle.step.specs.Tests.{Opened, Opens, Drafting};

use crate::write;
use numbers::Refusal;
use session_bytes::SIZE;
use step_drafts::{Settled, WORK, settle, shake};
use step_growth::growth::grow;
use table::Class;
use words::send;

// Takes one symbol.
pub fn step(
    file: &[u8],
    session: &mut [u8; SIZE],
    symbol: u8,
    out: &mut [u8],
) -> Result<usize, Refusal>
    ensures { Answered file.now session.old symbol out.old result
        session.new out.new }
{
    let mut work = [0u8; WORK];
    step_in(file, session, symbol, out, &mut work)
}

// The same, in a room that the caller lends; what the room holds afterwards is not promised. A part that refuses gives
// the step's own answer.
pub fn step_in(
    file: &[u8],
    session: &mut [u8; SIZE],
    symbol: u8,
    out: &mut [u8],
    work: &mut [u8; WORK],
) -> Result<usize, Refusal>
    ensures { Answered file.now session.old symbol out.old result
        session.new out.new }
{
    table_check::check(file)?;
    if !session::sound(file, session) {
        return Err(Refusal::BadSession);
    }
    let depth = admit(file, session, symbol)?;
    draft(file, session, symbol, depth, work)?;
    let Settled {
        at,
        length,
        longest,
    } = settle(work);
    if table::waiting_cap(file) < longest {
        return Err(Refusal::Backlog);
    }
    let sent = &work[at..at + length];
    let count = sent.len();
    if out.len() < count {
        return Err(Refusal::NoRoom);
    }
    send(out, sent);
    write::write(session, work, depth);
    Ok(count)
}

// Whether the symbol is known and the depth allows it: the depth that follows.
fn admit(file: &[u8], session: &[u8; SIZE], symbol: u8) -> Result<usize, Refusal>
    requires { Proper file.now session.now }
    ensures { Opens file.now session.now symbol result }
{
    let depth = links::depth(session);
    match table::class_of(file, symbol) {
        Class::Unused => Err(Refusal::UnknownSymbol),
        Class::Call if depth == table::depth_cap(file) => Err(Refusal::TooDeep),
        Class::Call => Ok(depth + 1),
        Class::Return => depth.checked_sub(1).ok_or(Refusal::Unopened),
        Class::Internal => Ok(depth),
    }
}

// Drafts what follows each present link, with the links below that something stands on; whether there is a run, links
// are few, and none clash.
fn draft(
    file: &[u8],
    session: &[u8; SIZE],
    symbol: u8,
    depth: usize,
    work: &mut [u8; WORK],
) -> Result<(), Refusal>
    requires { Opened file.now session.now symbol depth }
    ensures { Drafting file.now session.now symbol depth work.new result }
{
    let Some(clash) = grow(file, session, symbol, work) else {
        return Err(Refusal::Crowded);
    };
    if links::count(work) == 0 {
        return Err(Refusal::NoRun);
    }
    if !shake(session, depth, work) {
        return Err(Refusal::Crowded);
    }
    if clash {
        return Err(Refusal::Conflict);
    }
    Ok(())
}
