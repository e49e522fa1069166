// Drafts that move to other places: links, lengths and where pieces start; the pieces stay where they are.
ghost use Rattle.std.specs.Prelude.{◌+◌, ◌-◌, ◌<◌, ◌≤◌};
ghost use Rattle.words.specs.Words.{Bytes};
ghost use Rattle.step_drafts.specs.Drafts.{Moved, Wrote, Lifted, Lowered};

use crate::room;
use crate::room::WORK;

// What stands at a place comes to another.
fn carry(work: &mut [u8; WORK], from: usize, to: usize)
    requires { (from < 64) × (to < 64) × Bytes work.old }
    ensures { Wrote work.old to work.new ×
        Moved work.old from work.new to }
{
    let link = links::read(work, from);
    let long = links::long(work, from);
    let at = room::start(work, from);
    room::write(work, to, link, long, at);
}

// Those from a place on, of the first n, move up.
pub fn lift(work: &mut [u8; WORK], at: usize, n: usize, by: usize)
    requires { (at ≤ n) × (n + by ≤ 64) × Bytes work.old }
    ensures { Lifted work.old at n by work.new }
{
    for i in (at..n).rev() {
        carry(work, i, i + by);
    }
}

// Those from a place on move down to the first places.
pub fn lower(work: &mut [u8; WORK], first: usize)
    requires { (first ≤ 64) × Bytes work.old }
    ensures { Lowered work.old first (64 - first) work.new }
{
    for i in 0..64 - first {
        carry(work, first + i, i);
    }
}
