// Where the links of each level stand: links rise, the level first, so those of one level stand side by side.
ghost use Rattle.std.specs.Prelude.{◌≡◌, ◌+◌, ◌<◌};
ghost use Rattle.session_meaning.specs.Bytes.{link_count};
ghost use Rattle.session_meaning.specs.Numbers.{seat_at, foot_at, start_of, level_of, Graded, Levelled};
ghost use Rattle.links.specs.Heads.{FoundAt};

use crate::{count, foot, level, seat};
use std::ops::Range;
use words::wide;

// Levels 0 to 32, that of what would stand on the last of them, and where it would end.
pub const LEVELS: usize = 35;

// How many pairs of a state and a marker there are: a foot over this is the level of the links that have it.
pub const PAIRS: usize = 65536;

// The place where a level's links start; they end where those of the next level start.
pub fn start(starts: &[u8; LEVELS], level: usize) -> usize
    requires { level < 35 }
    ensures { result ≡ start_of starts.now level }
{
    wide(starts[level])
}

// The places of a level's links.
pub fn part(starts: &[u8; LEVELS], level: usize) -> Range<usize>
    requires { level < 34 }
    ensures { (result.start ≡ start_of starts.now level) × (result.end ≡ start_of starts.now (level + 1)) }
{
    start(starts, level)..start(starts, level + 1)
}

// Finds where each level starts: behind the last link of the level before it, and at 0 where that has none.
pub fn find(bytes: &[u8], starts: &mut [u8; LEVELS])
    requires { Graded bytes.now }
    ensures { Levelled bytes.now starts.new }
{
    *starts = [0u8; LEVELS];
    for i in 0..count(bytes) {
        starts[level(bytes, i) + 1] = (i + 1) as u8;
    }
}

// The first of the links with this foot, which are of one level, if there is one.
pub fn first_on(bytes: &[u8], starts: &[u8; LEVELS], below: usize) -> Option<usize>
    requires { Levelled bytes.now starts.now × (level_of below < 34) }
    ensures { FoundAt (foot_at bytes.now) (link_count bytes.now) below result }
{
    part(starts, below / PAIRS).find(|i| foot(bytes, *i) == below)
}

// The first of the links with this seat, which are of the level before that of what stands on it, if there is one.
pub fn first_with(bytes: &[u8], starts: &[u8; LEVELS], above: usize) -> Option<usize>
    requires { Levelled bytes.now starts.now × (0 < level_of above) × (level_of above < 35) }
    ensures { FoundAt (seat_at bytes.now) (link_count bytes.now) above result }
{
    part(starts, above / PAIRS - 1).find(|i| seat(bytes, *i) == above)
}
