// Putting entries at their places among the drafts, each link once.
ghost use Rattle.std.specs.Prelude.{◌≡◌, ◌++◌, ◌+◌, ◌≤◌, ◌<◌, length};
ghost use Rattle.words.specs.Lists.{Exact};
ghost use Rattle.session_meaning.specs.Sessions.{entry, RisesByLink};
ghost use Rattle.session_meaning.specs.Bytes.{link_count};
ghost use Rattle.links.specs.Heads.{meant};
ghost use Rattle.step_drafts.specs.Drafts.{draft_room, drafts_of, Drafted, Clean, DraftPlace, PutIn};

use crate::room::WORK;
use crate::{moving, room};
use links::Link;
use words::first_not;

// What became of an entry: its link is there with the same piece, with another, it is new, or there is no slot left.
#[derive(Clone, Copy)]
pub enum Keeping {
    Same,
    Other,
    New,
    Full,
}

// Puts an entry at its place among the drafts, unless its link is there.
pub fn put(work: &mut [u8; WORK], link: Link, a: &[u8], b: &[u8], c: &[u8]) -> Keeping
    requires drafted { Drafted work.old × RisesByLink (drafts_of work.old) × Clean link }
    requires c_len_bound { length a.now + length b.now + length c.now ≤ draft_room }
    ensures { PutIn work.old (entry (meant link) (a.now ++ b.now ++ c.now))
        result work.new }
{
    let n = links::count(work);
    let at = place(work, n, link);
    if at < n && links::compare(work, at, link).is_eq() {
        if same_piece(room::piece(work, at), a, b, c) {
            return Keeping::Same;
        }
        return Keeping::Other;
    }
    if n == 64 {
        return Keeping::Full;
    }
    let slot = room::slot(n);
    let long = a.len() + b.len() + c.len();
    room::fill(work, slot, a, b, c);
    moving::lift(work, at, n, 1);
    room::write(work, at, link, long, slot);
    room::set_count(work, n + 1);
    Keeping::New
}

// How many drafts are below a link: they stand before the place. Most entries come in order, each behind all.
fn place(work: &[u8; WORK], n: usize, link: Link) -> usize
    requires { Drafted work.now × RisesByLink (drafts_of work.now) × (n ≡ link_count work.now) }
    ensures { DraftPlace work.now n link result }
{
    if 0 < n && links::compare(work, n - 1, link).is_lt() {
        return n;
    }
    first_not(n, |i| links::compare(work, i, link).is_lt())
}

// Whether a piece is three parts, one after the other.
fn same_piece(piece: &[u8], a: &[u8], b: &[u8], c: &[u8]) -> bool
    ensures { Exact (piece.now ≡ a.now ++ b.now ++ c.now) result }
{
    let Some(behind) = piece.strip_prefix(a) else {
        return false;
    };
    let Some(last) = behind.strip_prefix(b) else {
        return false;
    };
    last == c
}
