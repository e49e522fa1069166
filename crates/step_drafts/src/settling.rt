// Settling drafts: pieces get what those above have in common, and are then cut by what is beside them in common.
ghost use Rattle.std.specs.Prelude.{◌+◌, ◌-◌, ◌≤◌, ◌<◌, length};
ghost use Rattle.session_meaning.specs.Bytes.{link_count, length_at};
ghost use Rattle.session_meaning.specs.Numbers.{level_of, Levelled};
ghost use Rattle.step_meaning.specs.Stepping.{push as push_of};
ghost use Rattle.step_drafts.specs.Drafts.{draft_room, work_size, piece_in, drafts_of, Drafted, CommonOn};
ghost use Rattle.step_drafts.specs.Drafts.{above_of, Lies, PushedOne, Pushed, Short, Cutting, CutBy};
ghost use Rattle.step_drafts.specs.Drafts.{Narrowed, CutOne, CutTo, Ready, SettledTo};

use crate::room;
use crate::room::WORK;
use links::levels;
use links::levels::{LEVELS, PAIRS};
use std::ops::Range;
use words::common_length;

// What is to be sent, so many bytes of the room from a place on, and how long the longest output is that then waits.
#[derive(Clone, Copy)]
pub struct Settled {
    pub at: usize,
    pub length: usize,
    pub longest: usize,
}

// How many of the bytes from a place on the piece of a draft begins with, where it has the foot.
fn narrowed(work: &[u8; WORK], i: usize, foot: usize, at: usize, long: usize) -> usize
    requires { (i < 64) × Lies work.now i × (at + long ≤ work_size) }
    ensures { Narrowed work.now i foot at long result }
{
    if links::foot(work, i) != foot {
        return long;
    }
    common_length(room::piece(work, i), &work[at..at + long])
}

// What the pieces of the drafts with this foot, which are of one level, have in common: a part of the room.
fn common_on(work: &[u8; WORK], starts: &[u8; LEVELS], foot: usize) -> Range<usize>
    requires { Drafted work.now × Levelled work.now starts.now × (level_of foot < 34) }
    ensures { (result.start ≤ result.end) × CommonOn work.now foot result.start (result.end - result.start) }
{
    let Some(first) = levels::first_on(work, starts, foot) else {
        return 0..0;
    };
    let at = room::start(work, first);
    let mut length = links::long(work, first);
    for i in first + 1..levels::part(starts, foot / PAIRS).end {
        length = narrowed(work, i, foot, at, length);
    }
    at..at + length
}

// Puts at the end of a piece what the pieces that stand on its pair have in common, and keeps how much that is.
fn push_one(work: &mut [u8; WORK], starts: &[u8; LEVELS], i: usize)
    requires drafted { Drafted work.old × Levelled work.old starts.now × (i < link_count work.old) }
    requires i_len_bound { length (piece_in work.old i) + length (above_of work.old i) ≤ draft_room }
    ensures { PushedOne work.old i work.new }
{
    let seat = links::seat(work, i);
    let above = common_on(work, starts, seat);
    let many = above.end - above.start;
    let long = links::long(work, i);
    let end = room::start(work, i) + long;
    work.copy_within(above, end);
    links::set_length(work, i, long + many);
    room::set_handed(work, i, many);
}

// Each piece gets at its end what the pieces that stand on its pair have in common.
fn push(work: &mut [u8; WORK], starts: &[u8; LEVELS])
    requires { Drafted work.old × Levelled work.old starts.now × Short (push_of (drafts_of work.old)) }
    ensures { Pushed work.old work.new }
{
    for i in (0..links::count(work)).rev() {
        push_one(work, starts, i);
    }
}

// By how much a draft is cut: as much as the one it stands on handed down, or as is sent where it stands on none.
fn cut_by(work: &[u8; WORK], starts: &[u8; LEVELS], sent: usize, i: usize) -> usize
    requires { Levelled work.now starts.now × (i < link_count work.now) }
    ensures { CutBy work.now sent i result }
{
    let foot = links::foot(work, i);
    if foot == 0 {
        return sent;
    }
    levels::first_with(work, starts, foot).map_or(sent, |below| room::handed(work, below))
}

// A draft without so many bytes in front.
fn cut_one(work: &mut [u8; WORK], i: usize, many: usize)
    requires { (i < 64) × (many ≤ length_at work.old i) × Lies work.old i }
    ensures { CutOne work.old i many work.new }
{
    let long = links::long(work, i);
    let at = room::start(work, i);
    links::set_length(work, i, long - many);
    room::set_start(work, i, at + many);
}

// Each draft loses what it and those beside it have in common.
fn cut(work: &mut [u8; WORK], starts: &[u8; LEVELS], sent: usize)
    requires { Cutting work.old sent × Levelled work.old starts.now }
    ensures { CutTo work.old (link_count work.old) work.new }
{
    for i in 0..links::count(work) {
        let many = cut_by(work, starts, sent, i);
        cut_one(work, i, many);
    }
}

// All of it.
pub fn settle(work: &mut [u8; WORK]) -> Settled
    requires { Ready work.old }
    ensures { SettledTo work.old result work.new }
{
    let mut starts = [0u8; LEVELS];
    levels::find(work, &mut starts);
    push(work, &starts);
    let sent = common_on(work, &starts, 0);
    let length = sent.end - sent.start;
    cut(work, &starts, length);
    let longest = links::weigh::longest(work, &starts);
    Settled {
        at: sent.start,
        length,
        longest,
    }
}
