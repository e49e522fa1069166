// Shaking: of the links below the new depth, those that something stands on are drafted before the new ones.
ghost use Rattle.std.specs.Prelude.{◌<◌, ◌≤◌};
ghost use Rattle.words.specs.Lists.{Exact};
ghost use Rattle.session_meaning.specs.Bytes.{link_count, entry_at, Kept};
ghost use Rattle.step_drafts.specs.Drafts.{drafts_of, Drafts, Drafted, Footed, Stays, AllAt, OneMore, shaken_over};
ghost use Rattle.step_drafts.specs.Drafts.{LevelsRise, ShakenTo};

use crate::room::WORK;
use crate::{moving, room};
use links::levels::PAIRS;
use session_bytes::SIZE;

// Whether a draft has this foot. They stand by level, so that none does behind the first that is too high.
fn carried(work: &[u8; WORK], first: usize, seat: usize) -> bool
    requires { Drafts work.now first 64 × LevelsRise work.now first 64 × (first ≤ 64) }
    ensures { Exact (Footed work.now first seat) result }
{
    let level = seat / PAIRS;
    for i in first..64 {
        if links::foot(work, i) == seat {
            return true;
        }
        if level < links::level(work, i) {
            return false;
        }
    }
    false
}

// Whether a link of the session is below the depth, and a draft stands on it.
fn stays(session: &[u8; SIZE], i: usize, depth: usize, work: &[u8; WORK], first: usize) -> bool
    requires { (i < 64) × Drafts work.now first 64 × LevelsRise work.now first 64 × (first ≤ 64) }
    ensures { Exact (Stays session.now i depth work.now first) result }
{
    links::level(session, i) < depth && carried(work, first, links::seat(session, i))
}

// Drafts a link of the session, with its piece, right before the drafts that are there.
fn draft_lower(session: &[u8; SIZE], i: usize, work: &mut [u8; WORK], first: usize)
    requires kept { Kept session.now × (i < link_count session.now) × Drafts work.old first 64 }
    requires first_nonzero { (0 < first) × (first ≤ 64) }
    ensures { OneMore (entry_at session.now i) work.old first work.new }
{
    let link = links::read(session, i);
    let piece = session_bytes::piece(session, i);
    let slot = room::slot(64 - first);
    room::fill(work, slot, piece, &[], &[]);
    room::write(work, first - 1, link, piece.len(), slot);
}

// Drafts the lower links that stay before the drafts that are there, from the last to the first: these are first moved
// to the last places, and all of them to the first places in the end. Whether there is room.
pub fn shake(session: &[u8; SIZE], depth: usize, work: &mut [u8; WORK]) -> bool
    requires kept { Kept session.now × Drafted work.old }
    requires all_at { AllAt depth (drafts_of work.old) × LevelsRise session.now 0 (link_count session.now) }
    ensures { ShakenTo (shaken_over session.now depth (drafts_of work.old)) result work.new }
{
    let n = links::count(work);
    moving::lift(work, 0, n, 64 - n);
    let mut first = 64 - n;
    for i in (0..links::count(session)).rev() {
        if stays(session, i, depth, work, first) {
            if first == 0 {
                return false;
            }
            draft_lower(session, i, work, first);
            first -= 1;
        }
    }
    moving::lower(work, first);
    room::set_count(work, 64 - first);
    true
}
