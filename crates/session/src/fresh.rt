// Beginning: a session for a table, at depth 0 in each starting state, with nothing waiting.
ghost use Rattle.std.specs.Prelude.{◌≡◌};
ghost use Rattle.sets.specs.Sets.{members};
ghost use Rattle.session_meaning.specs.Sessions.{started};
ghost use Rattle.session_meaning.specs.Bytes.{bytes_of};
ghost use Rattle.session.specs.Calls.{Begun};

use numbers::Refusal;
use session_bytes::{SIZE, clear};

// Makes a fresh session for a good table, and says how many starting states there are.
pub fn begin(file: &[u8], session: &mut [u8; SIZE]) -> Result<usize, Refusal>
    ensures { Begun file.now session.old result session.new }
{
    table_check::check(file)?;
    let set = table::starting_set(file);
    start(session, set);
    Ok(sets::size(set) as usize)
}

// A session with a link for each state of a set, in rising order.
fn start(session: &mut [u8; SIZE], set: u64)
    ensures { session.new ≡ bytes_of (started (members set)) }
{
    clear(session);
    let mut rest = set;
    for i in 0..sets::size(set) as usize {
        links::add_start(session, i, sets::lowest(rest) as u8);
        rest = sets::without_lowest(rest);
    }
}
