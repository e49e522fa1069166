// Sessions: which bytes are sound for a table, and those to begin with. Nothing outside the lent bytes is read or
// written.
#![tactic(auto)]

mod fresh;
mod rules;

ghost use Rattle.words.specs.Lists.{Exact};
ghost use Rattle.table.specs.File.{table_of};
ghost use Rattle.table.specs.Good.{first_edition, GoodFile};
ghost use Rattle.session_meaning.specs.Bytes.{SoundBytes};

pub use fresh::begin;
use rules::ByLevel;
use session_bytes::SIZE;

// Whether a session is sound for the table of a good file. The links are looked at before what rests on them, and the
// places not used last: they are the most to look at.
pub fn sound(file: &[u8], session: &[u8; SIZE]) -> bool
    requires { GoodFile first_edition file.now }
    ensures { Exact (SoundBytes (table_of file.now) session.now) result }
{
    let count = links::count(session);
    if count < 1 || 64 < count || table::depth_cap(file) < links::depth(session) {
        return false;
    }
    rules::links(file, session) && ByLevel::new(session).rests(file)
}
