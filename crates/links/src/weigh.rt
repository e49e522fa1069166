// The longest waiting output, by one pass from the last link to the first: what stands on a link comes after it.
ghost use Rattle.std.specs.Prelude.{◌≡◌, ◌+◌, ◌<◌};
ghost use Rattle.session_meaning.specs.Soundly.{longest_of};
ghost use Rattle.session_meaning.specs.Bytes.{link_count};
ghost use Rattle.session_meaning.specs.Numbers.{start_of, level_of, Levelled, Weighable, weights, Weighed, Heaviest};

use crate::levels::{LEVELS, PAIRS, part};
use crate::{count, foot, long, seat};

// The most of the loads of the links with this foot, which are of one level; 0 where there is none. A load, of 64 pieces
// at most, has room in 16 bits.
fn most_on(bytes: &[u8], starts: &[u8; LEVELS], loads: &[u16; 64], below: usize) -> usize
    requires levelled { Levelled bytes.now starts.now × (level_of below < 34) }
    requires weighed { Weighed bytes.now loads.now (start_of starts.now (level_of below)) }
    ensures { Heaviest bytes.now below (start_of starts.now (level_of below)) result }
{
    let mut most = 0;
    for j in part(starts, below / PAIRS) {
        if foot(bytes, j) == below {
            most = most.max(usize::from(loads[j]));
        }
    }
    most
}

// Weighs a link: its piece and the most of what stands on it.
fn weigh(bytes: &[u8], starts: &[u8; LEVELS], loads: &mut [u16; 64], i: usize)
    requires levelled { Levelled bytes.now starts.now × Weighable bytes.now }
    requires i_bound { (i < link_count bytes.now) × Weighed bytes.now loads.old (i + 1) }
    ensures { Weighed bytes.now loads.new i }
{
    let above = most_on(bytes, starts, loads, seat(bytes, i));
    let own = long(bytes, i);
    loads[i] = (own + above) as u16;
}

// How long the longest waiting output is.
pub fn longest(bytes: &[u8], starts: &[u8; LEVELS]) -> usize
    requires { Levelled bytes.now starts.now × Weighable bytes.now }
    ensures { result ≡ longest_of (weights bytes.now) }
{
    let mut loads = [0u16; 64];
    for i in (0..count(bytes)).rev() {
        weigh(bytes, starts, &mut loads, i);
    }
    most_on(bytes, starts, &loads, 0)
}
