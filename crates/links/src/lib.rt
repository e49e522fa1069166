// A head: depth, count, 64 links of five bytes and 64 lengths of two, as a session and the room of a step begin. Nobody
// else counts its bytes. Where the pieces stand is not known here.

#![tactic(auto)]

pub mod levels;
pub mod weigh;
mod writing;

ghost use Rattle.std.specs.Prelude.{◌≡◌, ◌+◌, ◌≤◌, ◌<◌, length};
ghost use Rattle.words.specs.Lists.{Exact};
ghost use Rattle.words.specs.Words.{Bytes};
ghost use Rattle.words.specs.LittleEndian.{byte};
ghost use Rattle.session_meaning.specs.Bytes.{link_start, link_count, length_at, below_at, link_at};
ghost use Rattle.session_meaning.specs.Numbers.{head_size, pairs, keys, seat_at, foot_at, key_at, Clear};
ghost use Rattle.links.specs.Heads.{key_of, Read, Compared, RestClear};

use std::cmp::Ordering;
use words::{load_two, wide, zeros};
pub use writing::{add_start, insert_gap, put, set_head, set_length};

// Where links and lengths start, and where they end.
const LINKS: usize = 2;

const LENGTHS: usize = 322;

pub const HEAD: usize = 450;

// A link by value.
#[derive(Clone, Copy)]
pub struct Link {
    pub level: u8,
    pub state: u8,
    pub marker: u8,
    pub state_below: u8,
    pub marker_below: u8,
}

pub fn depth(bytes: &[u8]) -> usize
    requires { head_size ≤ length bytes.now }
    ensures { (result ≡ byte bytes.now 0) × (result < 256) }
{
    wide(bytes[0])
}

// It also promises what the type says of all bytes: nothing else could tell its callers.
pub fn count(bytes: &[u8]) -> usize
    requires { head_size ≤ length bytes.now }
    ensures value { (result ≡ link_count bytes.now) × (result < 256) }
    ensures bytes { Bytes bytes.now }
{
    wide(bytes[1])
}

pub fn level(bytes: &[u8], i: usize) -> usize
    requires { (head_size ≤ length bytes.now) × (i < 64) }
    ensures { (result ≡ (link_at bytes.now i).level) × (result < 256) }
{
    wide(bytes[LINKS + 5 * i])
}

pub fn state(bytes: &[u8], i: usize) -> usize
    requires { (head_size ≤ length bytes.now) × (i < 64) }
    ensures { (result ≡ (link_at bytes.now i).here.state) × (result < 256) }
{
    wide(bytes[LINKS + 5 * i + 1])
}

pub fn marker(bytes: &[u8], i: usize) -> usize
    requires { (head_size ≤ length bytes.now) × (i < 64) }
    ensures { (result ≡ (link_at bytes.now i).here.marker) × (result < 256) }
{
    wide(bytes[LINKS + 5 * i + 2])
}

// Where a link has a pair below, that pair.
pub fn state_below(bytes: &[u8], i: usize) -> usize
    requires { (head_size ≤ length bytes.now) × (i < 64) }
    ensures { (result ≡ (below_at bytes.now i).state) × (result < 256) }
{
    wide(bytes[LINKS + 5 * i + 3])
}

pub fn marker_below(bytes: &[u8], i: usize) -> usize
    requires { (head_size ≤ length bytes.now) × (i < 64) }
    ensures { (result ≡ (below_at bytes.now i).marker) × (result < 256) }
{
    wide(bytes[LINKS + 5 * i + 4])
}

// How long the link's piece is.
pub fn long(bytes: &[u8], i: usize) -> usize
    requires { (head_size ≤ length bytes.now) × (i < 64) }
    ensures { (result ≡ length_at bytes.now i) × (result < pairs) }
{
    load_two(bytes, LENGTHS + 2 * i)
}

// A link's seat, which others may stand on, and its foot: it stands on the link whose seat is its foot, and one at
// level 0 has foot 0.
pub fn seat(bytes: &[u8], i: usize) -> usize
    requires { (head_size ≤ length bytes.now) × (i < 64) }
    ensures { result ≡ seat_at bytes.now i }
{
    ((level(bytes, i) + 1) * 256 + state(bytes, i)) * 256 + marker(bytes, i)
}

pub fn foot(bytes: &[u8], i: usize) -> usize
    requires { (head_size ≤ length bytes.now) × (i < 64) }
    ensures { result ≡ foot_at bytes.now i }
{
    (level(bytes, i) * 256 + state_below(bytes, i)) * 256 + marker_below(bytes, i)
}

// Its five bytes as one number, which rises as links do.
pub fn key(bytes: &[u8], i: usize) -> usize
    requires { (head_size ≤ length bytes.now) × (i < 64) }
    ensures { (result ≡ key_at bytes.now i) × (result < keys) }
{
    key_of(read(bytes, i))
}

// The same of a link by value.
fn key_of(link: Link) -> usize
    ensures { result ≡ key_of link }
{
    let here = (wide(link.level) * 256 + wide(link.state)) * 256 + wide(link.marker);
    (here * 256 + wide(link.state_below)) * 256 + wide(link.marker_below)
}

// The link at a place.
pub fn read(bytes: &[u8], i: usize) -> Link
    requires { (head_size ≤ length bytes.now) × (i < 64) }
    ensures { Read bytes.now (link_start i) result }
{
    let at = LINKS + 5 * i;
    Link {
        level: bytes[at],
        state: bytes[at + 1],
        marker: bytes[at + 2],
        state_below: bytes[at + 3],
        marker_below: bytes[at + 4],
    }
}

// Where the link at a place stands to another.
pub fn compare(bytes: &[u8], i: usize, link: Link) -> Ordering
    requires { (head_size ≤ length bytes.now) × (i < 64) }
    ensures { Compared bytes.now i link result }
{
    key(bytes, i).cmp(&key_of(link))
}

// Whether a part of the bytes is 0.
pub fn blank(bytes: &[u8], start: usize, end: usize) -> bool
    requires { (start ≤ end) × (end ≤ length bytes.now) }
    ensures { Exact (Clear bytes.now start end) result }
{
    zeros(&bytes[start..end])
}

// Whether the places of links and lengths that are not used are.
pub fn rest_blank(bytes: &[u8]) -> bool
    requires { (head_size ≤ length bytes.now) × (link_count bytes.now ≤ 64) }
    ensures { Exact (RestClear bytes.now) result }
{
    let n = count(bytes);
    blank(bytes, LINKS + 5 * n, LENGTHS) && blank(bytes, LENGTHS + 2 * n, HEAD)
}
