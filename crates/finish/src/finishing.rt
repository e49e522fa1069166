// The end of a message: whether it is accepted, and what still waits. No session is changed.
ghost use Rattle.std.specs.Prelude.{◌<◌};
ghost use Rattle.words.specs.Lists.{Exact};
ghost use Rattle.session_meaning.specs.Bytes.{link_count};
ghost use Rattle.session_meaning.specs.Numbers.{Measured};
ghost use Rattle.step_meaning.specs.Promises.{Ended};
ghost use Rattle.finish.specs.Finishing.{FoundFinal, LikeAt, Like};

use numbers::Refusal;
use session_bytes::SIZE;
use words::send;

// Ends a message: writes what still waits, if all runs that accept agree on it.
pub fn finish(file: &[u8], session: &[u8; SIZE], out: &mut [u8]) -> Result<usize, Refusal>
    ensures { Ended file.now session.now out.old result out.new }
{
    table_check::check(file)?;
    if !session::sound(file, session) {
        return Err(Refusal::BadSession);
    }
    if links::depth(session) != 0 {
        return Err(Refusal::Unclosed);
    }
    let finals = table::final_set(file);
    let Some(i) = first_final(finals, session) else {
        return Err(Refusal::NotFinal);
    };
    if !like(finals, session, i) {
        return Err(Refusal::Ambiguous);
    }
    let rest = session_bytes::piece(session, i);
    let count = rest.len();
    if out.len() < count {
        return Err(Refusal::NoRoom);
    }
    send(out, rest);
    Ok(count)
}

// The first link whose state is in a set, if there is one.
fn first_final(finals: u64, session: &[u8; SIZE]) -> Option<usize>
    requires { Measured session.now }
    ensures { FoundFinal finals session.now result }
{
    (0..links::count(session)).find(|i| sets::has(finals, links::state(session, *i)))
}

// Whether a link has a state outside the set, or the same piece as another.
fn like_at(finals: u64, session: &[u8; SIZE], i: usize, j: usize) -> bool
    requires { Measured session.now × (i < link_count session.now) × (j < link_count session.now) }
    ensures { Exact (LikeAt finals session.now i j) result }
{
    !sets::has(finals, links::state(session, j))
        || session_bytes::piece(session, j) == session_bytes::piece(session, i)
}

// Whether all links after one are like it.
fn like(finals: u64, session: &[u8; SIZE], i: usize) -> bool
    requires { Measured session.now × (i < link_count session.now) }
    ensures { Exact (Like finals session.now i) result }
{
    for j in i + 1..links::count(session) {
        if !like_at(finals, session, i, j) {
            return false;
        }
    }
    true
}
