// Writing a head: each function leaves all bytes but those that it names as they were.
ghost use Rattle.std.specs.Prelude.{◌≡◌, ◌+◌, ◌≤◌, ◌<◌, length, set};
ghost use Rattle.session_meaning.specs.Bytes.{link_start};
ghost use Rattle.session_meaning.specs.Numbers.{head_size, pairs};
ghost use Rattle.links.specs.Heads.{with_length, with_link, Gapped};

use crate::{LENGTHS, LINKS, Link};
use words::store_two;

// The depth, and how many links there are.
pub fn set_head(bytes: &mut [u8], depth: usize, count: usize)
    requires { (head_size ≤ length bytes.old) × (depth < 256) × (count < 256) }
    ensures { bytes.new ≡ set (set bytes.old 0 depth) 1 count }
{
    bytes[0] = depth as u8;
    bytes[1] = count as u8;
}

// One link more, at level 0 with this state. What else a link has is 0 there, and is not written.
pub fn add_start(bytes: &mut [u8], i: usize, state: u8)
    requires { (head_size ≤ length bytes.old) × (i < 64) }
    ensures { bytes.new ≡ set (set bytes.old 1 (i + 1)) (link_start i + 1) state }
{
    bytes[1] = (i + 1) as u8;
    bytes[LINKS + 5 * i + 1] = state;
}

// How long a piece is.
pub fn set_length(bytes: &mut [u8], i: usize, n: usize)
    requires { (head_size ≤ length bytes.old) × (i < 64) × (n < pairs) }
    ensures { bytes.new ≡ with_length bytes.old i n }
{
    store_two(bytes, LENGTHS + 2 * i, n);
}

// A link, and how long its piece is.
pub fn put(bytes: &mut [u8], i: usize, link: Link, n: usize)
    requires { (head_size ≤ length bytes.old) × (i < 64) × (n < pairs) }
    ensures { bytes.new ≡ with_link bytes.old i link n }
{
    let at = LINKS + 5 * i;
    bytes[at] = link.level;
    bytes[at + 1] = link.state;
    bytes[at + 2] = link.marker;
    bytes[at + 3] = link.state_below;
    bytes[at + 4] = link.marker_below;
    set_length(bytes, i, n);
}

// Of the first n links, those from a place on move up by one, with their lengths.
pub fn insert_gap(bytes: &mut [u8], n: usize, at: usize)
    requires { (head_size ≤ length bytes.old) × (at ≤ n) × (n < 64) }
    ensures { Gapped bytes.old n at bytes.new }
{
    bytes.copy_within(LINKS + 5 * at..LINKS + 5 * n, LINKS + 5 * (at + 1));
    bytes.copy_within(LENGTHS + 2 * at..LENGTHS + 2 * n, LENGTHS + 2 * (at + 1));
}
