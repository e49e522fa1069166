// The rules of soundness: each says whether the session keeps it.
ghost use Rattle.std.specs.Prelude.{◌≡◌, ◌↔◌, ◌≤◌, ◌<◌, length};
ghost use Rattle.words.specs.Lists.{Exact};
ghost use Rattle.table.specs.File.{table_of};
ghost use Rattle.table.specs.Good.{first_edition, GoodFile};
ghost use Rattle.session_meaning.specs.Bytes.{size, link_count};
ghost use Rattle.session_meaning.specs.Numbers.{LinkFits, Links, RootedAt, Agrees, Common, CarriesAt, Grouped, Rests};
ghost use Rattle.session_meaning.specs.Numbers.{head_size, level_of, Graded, Levelled};
ghost use Rattle.session.specs.Calls.{head_number};

use links::levels::{LEVELS, PAIRS, find, first_with, part};
use links::weigh;

// "marker 0 exactly at level 0"
fn mark_fits(level: usize, marker: usize) -> bool
    ensures { Exact ((marker ≡ 0) ↔ (level ≡ 0)) result }
{
    (level == 0) == (marker == 0)
}

// Whether a link keeps the rules that look at no other.
fn link_fits(file: &[u8], session: &[u8], i: usize) -> bool
    requires { (GoodFile first_edition file.now) × (head_size ≤ length session.now) × (i < 64) }
    ensures { Exact (LinkFits (table_of file.now) session.now i) result }
{
    let level = links::level(session, i);
    let marker = links::marker(session, i);
    level <= links::depth(session)
        && links::state(session, i) < table::states(file)
        && marker <= table::markers(file)
        && links::long(session, i) <= 512
        && mark_fits(level, marker)
        && (0 < level || links::foot(session, i) == 0)
}

// Whether all links do, and rise: each number is at least one more than that of the link before it.
pub fn links(file: &[u8], session: &[u8]) -> bool
    requires { (GoodFile first_edition file.now) × (head_size ≤ length session.now) × (link_count session.now ≤ 64) }
    ensures { Exact (Links (table_of file.now) session.now) result }
{
    let mut least = 0;
    for i in 0..links::count(session) {
        if !link_fits(file, session, i) {
            return false;
        }
        let key = links::key(session, i);
        if key < least {
            return false;
        }
        least = key + 1;
    }
    true
}

// Whether a piece begins with the byte that all before it begin with, if there are any.
fn agrees(first: Option<u8>, head: Option<u8>) -> bool
    ensures { Exact (Agrees (head_number first) (head_number head)) result }
{
    match (first, head) {
        (_, None) => false,
        (None, Some(_)) => true,
        (Some(first), Some(head)) => head == first,
    }
}

// A session whose links stand by level, and where those of each level start, so that each search looks at one level.
#[derive(Drop)]
pub struct ByLevel<'a> {
    session: &'a [u8],
    starts: [u8; LEVELS],
    ghost whole: { length session.now ≡ size },
    ghost levelled: { Levelled session.now starts },
}

impl<'a> ByLevel<'a> {
    // Finds where the levels of a session start.
    pub fn new(session: &'a [u8]) -> Self
        requires { (length session.now ≡ size) × Graded session.now }
        ensures { result.session.now ≡ session.now }
    {
        let mut starts = [0u8; LEVELS];
        find(session, &mut starts);
        ByLevel { session, starts }
    }

    // Whether a link is at level 0 or stands on one that is there, which is of the level before its own.
    fn rooted(&self, i: usize) -> bool
        requires { i < link_count self.now.session.now }
        ensures { Exact (RootedAt self.now.session.now i) result }
    {
        let foot = links::foot(self.session, i);
        foot == 0 || first_with(self.session, &self.starts, foot).is_some()
    }

    // Whether the pieces on the links with one foot, which are of one level, have no common first byte.
    fn apart(&self, foot: usize) -> bool
        requires { level_of foot < 34 }
        ensures { Exact (Common self.now.session.now foot → ⊥) result }
    {
        let mut first = None;
        for j in part(&self.starts, foot / PAIRS) {
            if links::foot(self.session, j) == foot {
                let head = session_bytes::head(self.session, j);
                if !agrees(first, head) {
                    return true;
                }
                first = head;
            }
        }
        false
    }

    // Whether a link is at the depth, or those that stand on it have no common first byte, and there are some.
    fn carries(&self, i: usize) -> bool
        requires { i < link_count self.now.session.now }
        ensures { Exact (CarriesAt self.now.session.now i) result }
    {
        links::level(self.session, i) == links::depth(self.session)
            || self.apart(links::seat(self.session, i))
    }

    // Whether every link lies on a full trail, and no pieces that could have been moved down were left.
    fn groups(&self) -> bool
        ensures { Exact (Grouped self.now.session.now) result }
    {
        if !self.apart(0) {
            return false;
        }
        for i in 0..links::count(self.session) {
            if !self.rooted(i) || !self.carries(i) {
                return false;
            }
        }
        true
    }

    // The rules that rest on links that fit.
    pub fn rests(&self, file: &[u8]) -> bool
        requires { (GoodFile first_edition file.now) × Links (table_of file.now) self.now.session.now }
        ensures { Exact (Rests (table_of file.now) self.now.session.now) result }
    {
        self.groups()
            && weigh::longest(self.session, &self.starts) <= table::waiting_cap(file)
            && session_bytes::unused(self.session)
    }
}
