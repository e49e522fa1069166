// What stands where in the room of a step. Nobody else counts its bytes.
ghost use Rattle.std.specs.Prelude.{◌≡◌, [], ◌++◌, ◌+◌, ◌<◌, ◌≤◌, length, set};
ghost use Rattle.words.specs.Words.{Bytes};
ghost use Rattle.session_meaning.specs.Numbers.{pairs};
ghost use Rattle.links.specs.Heads.{five_of};
ghost use Rattle.step_drafts.specs.Drafts.{slot_start, draft_room, work_size, where_at, handed_at, piece_in};
ghost use Rattle.words.specs.LittleEndian.{with_two};
ghost use Rattle.step_drafts.specs.Drafts.{where_start, handed_start, Lies, Written, Drew, Drafted};
ghost use Rattle.step_drafts.specs.Drafts.{drafts_of};

use links::Link;
use words::{copy, load_two, store_two};

// Where the places of pieces, what was handed down, and the slots start; how many bytes a slot has, and the room.
const WHERE: usize = 450;

const HANDED: usize = 578;

const SLOTS: usize = 768;

const ROOM: usize = 768;

pub const WORK: usize = 49920;

// Where a draft's piece starts.
pub fn start(work: &[u8; WORK], i: usize) -> usize
    requires { i < 64 }
    ensures { (result ≡ where_at work.now i) × (result < pairs) }
{
    load_two(work, WHERE + 2 * i)
}

// How much a draft handed down.
pub fn handed(work: &[u8; WORK], i: usize) -> usize
    requires { i < 64 }
    ensures { (result ≡ handed_at work.now i) × (result < pairs) }
{
    load_two(work, HANDED + 2 * i)
}

// A draft's piece, as a part of the room.
pub fn piece(work: &[u8; WORK], i: usize) -> &[u8]
    requires { (i < 64) × Lies work.now i }
    ensures { result.now ≡ piece_in work.now i }
{
    let from = start(work, i);
    &work[from..from + links::long(work, i)]
}

pub fn set_start(work: &mut [u8; WORK], i: usize, at: usize)
    requires { (i < 64) × (at < pairs) }
    ensures { work.new ≡ with_two work.old (where_start i) at }
{
    store_two(work, WHERE + 2 * i, at);
}

pub fn set_handed(work: &mut [u8; WORK], i: usize, many: usize)
    requires { (i < 64) × (many < pairs) }
    ensures { work.new ≡ with_two work.old (handed_start i) many }
{
    store_two(work, HANDED + 2 * i, many);
}

// A link at a place, with how long its piece is and where that starts.
pub fn write(work: &mut [u8; WORK], i: usize, link: Link, n: usize, at: usize)
    requires i_bound { (i < 64) × (n < pairs) × (at < pairs) }
    requires bytes { Bytes work.old × Bytes (five_of link) }
    ensures { Drew work.old i link n at work.new }
{
    links::put(work, i, link, n);
    set_start(work, i, at);
}

// Where a slot starts.
pub fn slot(s: usize) -> usize
    requires { s < 64 }
    ensures { (result ≡ slot_start s) × (result + draft_room ≤ work_size) }
{
    SLOTS + ROOM * s
}

// A piece in three parts, from a place on.
pub fn fill(work: &mut [u8; WORK], at: usize, a: &[u8], b: &[u8], c: &[u8])
    requires { at + length a.now + length b.now + length c.now ≤ work_size }
    ensures written { Written work.old at (a.now ++ b.now ++ c.now)
        work.new }
    ensures bytes { Bytes work.new }
{
    let second = at + a.len();
    let third = second + b.len();
    copy(work, at, a);
    copy(work, second, b);
    copy(work, third, c);
}

// How many drafts there are.
pub fn set_count(work: &mut [u8; WORK], n: usize)
    requires { n < 256 }
    ensures { work.new ≡ set (set work.old 0 0) 1 n }
{
    links::set_head(work, 0, n);
}

// No draft is there, whatever the lent room holds: that it holds bytes is known to one who reads it.
pub fn clear(work: &mut [u8; WORK])
    ensures { Drafted work.new × (drafts_of work.new ≡ []) }
{
    links::count(work);
    set_count(work, 0);
}
