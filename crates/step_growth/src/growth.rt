// Growing: for each present link and each row that fits it, the links that follow with their pieces, each kept once.
ghost use Rattle.std.specs.Prelude.{◌≡◌, [], ◌∷◌, ◌++◌, ◌+◌, ◌<◌, ◌≤◌, length, Some};
ghost use Rattle.meaning.specs.Table.{call, return, internal};
ghost use Rattle.table.specs.File.{row_count, row_at, table_of};
ghost use Rattle.table.specs.Calls.{meant};
ghost use Rattle.session_meaning.specs.Bytes.{link_count, link_at, session_of, Kept};
ghost use Rattle.step_meaning.specs.Stepping.{moved_to, fits_link};
ghost use Rattle.step_meaning.specs.Stepping.{grow as grow_of};
ghost use Rattle.meaning.specs.Trails.{on};
ghost use Rattle.session_meaning.specs.Sessions.{entry};
ghost use Rattle.links.specs.Heads.{meant as link_meant};
ghost use Rattle.step_drafts.specs.Drafts.{draft_room, Plain, Clean};
ghost use Rattle.step_growth.specs.Growing.{Grown, SomeGrown, Gathers, Made, Usable, Fitting, after, uncovered};
ghost use Rattle.step_growth.specs.Growing.{by_class, by_rows};

use links::Link;
use session_bytes::SIZE;
use step_drafts::{Keeping, WORK, put};
use table::Class;
use words::wide;

// One entry more, whose piece comes in three parts. What is made so far is told by `clash`, whether two ways to one link
// had different pieces, as by all below; the answer is the same, or none where there is a link too many.
fn add(work: &mut [u8; WORK], clash: bool, link: Link, a: &[u8], b: &[u8], c: &[u8]) -> Option<bool>
    requires some_grown { SomeGrown work.old (Some clash) × Clean link }
    requires c_len_bound { length a.now + length b.now + length c.now ≤ draft_room }
    ensures { Gathers (entry (link_meant link) (a.now ++ b.now ++ c.now) ∷ []) work.old
        (Some clash) result work.new }
{
    match put(work, link, a, b, c) {
        Keeping::Same | Keeping::New => Some(clash),
        Keeping::Other => Some(true),
        Keeping::Full => None,
    }
}

// A session's link with another state.
fn moved(session: &[u8; SIZE], i: usize, state: usize) -> Link
    requires { (Kept session.now) × (i < link_count session.now) × (state < 256) }
    ensures { Made (moved_to state (link_at session.now i)) result }
{
    Link {
        state: state as u8,
        ..links::read(session, i)
    }
}

// A link one level up that stands on the pair of a session's link.
fn over(session: &[u8; SIZE], i: usize, state: usize, marker: usize) -> Link
    requires { (Kept session.now) × (i < link_count session.now) ×
        Plain (on state marker (link_at session.now i)) }
    ensures { Made (on state marker (link_at session.now i)) result }
{
    let old = links::read(session, i);
    Link {
        level: (wide(old.level) + 1) as u8,
        state: state as u8,
        marker: marker as u8,
        state_below: old.state,
        marker_below: old.marker,
    }
}

// A call: a link one level up that stands on the present pair, with the row's word.
fn follow_call(
    file: &[u8],
    session: &[u8; SIZE],
    i: usize,
    r: usize,
    work: &mut [u8; WORK],
    clash: bool,
) -> Option<bool>
    requires usable { (Usable file.now session.now) × (i < link_count session.now) × (r < row_count file.now) }
    requires some_grown { (SomeGrown work.old (Some clash)) × Fitting (after file.now session.now call i r) }
    ensures { Gathers (after file.now session.now call i r)
        work.old (Some clash) result work.new }
{
    let link = over(
        session,
        i,
        table::row_to(file, r),
        table::row_marker(file, r),
    );
    let word = table::row_word(file, r);
    add(work, clash, link, word, &[], &[])
}

// An internal symbol: the same level and pair below, with the row's word behind the old piece.
fn follow_internal(
    file: &[u8],
    session: &[u8; SIZE],
    i: usize,
    r: usize,
    work: &mut [u8; WORK],
    clash: bool,
) -> Option<bool>
    requires usable { (Usable file.now session.now) × (i < link_count session.now) × (r < row_count file.now) }
    requires some_grown { (SomeGrown work.old (Some clash)) × Fitting (after file.now session.now internal i r) }
    ensures { Gathers (after file.now session.now internal i r)
        work.old (Some clash) result work.new }
{
    let link = moved(session, i, table::row_to(file, r));
    let piece = session_bytes::piece(session, i);
    let word = table::row_word(file, r);
    add(work, clash, link, piece, word, &[])
}

// A return that uncovers link `j`: what was there and above it joined, with the row's word behind.
fn uncover(
    file: &[u8],
    session: &[u8; SIZE],
    i: usize,
    r: usize,
    j: usize,
    work: &mut [u8; WORK],
    clash: bool,
) -> Option<bool>
    requires usable { (Usable file.now session.now) × (i < link_count session.now) ×
        (r < row_count file.now) × (j < link_count session.now) }
    requires some_grown { (SomeGrown work.old (Some clash)) × Fitting (uncovered file.now session.now i r j) }
    ensures { Gathers (uncovered file.now session.now i r j)
        work.old (Some clash) result work.new }
{
    if links::seat(session, j) != links::foot(session, i) {
        return Some(clash);
    }
    let link = moved(session, j, table::row_to(file, r));
    let lower = session_bytes::piece(session, j);
    let upper = session_bytes::piece(session, i);
    let word = table::row_word(file, r);
    add(work, clash, link, lower, upper, word)
}

// A return: all links that the present one stands on. Links stand by level, so that none of them comes after the first
// that is as high.
fn follow_return(
    file: &[u8],
    session: &[u8; SIZE],
    i: usize,
    r: usize,
    work: &mut [u8; WORK],
    mut clash: bool,
) -> Option<bool>
    requires usable { (Usable file.now session.now) × (i < link_count session.now) × (r < row_count file.now) }
    requires some_grown { (SomeGrown work.old (Some clash)) × Fitting (after file.now session.now return i r) }
    ensures { Gathers (after file.now session.now return i r)
        work.old (Some clash) result work.new }
{
    let level = links::level(session, i);
    for j in 0..links::count(session) {
        if level <= links::level(session, j) {
            return Some(clash);
        }
        clash = uncover(file, session, i, r, j, work, clash)?;
    }
    Some(clash)
}

// What follows a link by a row of a class.
fn follow(
    file: &[u8],
    session: &[u8; SIZE],
    class: Class,
    i: usize,
    r: usize,
    work: &mut [u8; WORK],
    clash: bool,
) -> Option<bool>
    requires usable { (Usable file.now session.now) × (i < link_count session.now) × (r < row_count file.now) }
    requires some_grown { (SomeGrown work.old (Some clash)) × Fitting (after file.now session.now (meant class) i r) }
    ensures { Gathers (after file.now session.now (meant class) i r)
        work.old (Some clash) result work.new }
{
    match class {
        Class::Unused => Some(clash),
        Class::Call => follow_call(file, session, i, r, work, clash),
        Class::Return => follow_return(file, session, i, r, work, clash),
        Class::Internal => follow_internal(file, session, i, r, work, clash),
    }
}

// Whether a row of a class can be taken from the pair of a link.
fn fits(file: &[u8], session: &[u8; SIZE], class: Class, i: usize, r: usize) -> bool
    requires { (Usable file.now session.now) × (i < link_count session.now) × (r < row_count file.now) }
    ensures { result ≡ fits_link (meant class) (row_at file.now r) (link_at session.now i) }
{
    if links::state(session, i) != table::row_from(file, r) {
        return false;
    }
    match class {
        Class::Unused => false,
        Class::Call | Class::Internal => true,
        Class::Return => links::marker(session, i) == table::row_marker(file, r),
    }
}

// What follows a link by a row, where it fits.
fn by_row(
    file: &[u8],
    session: &[u8; SIZE],
    class: Class,
    i: usize,
    r: usize,
    work: &mut [u8; WORK],
    clash: bool,
) -> Option<bool>
    requires usable { (Usable file.now session.now) × (i < link_count session.now) × (r < row_count file.now) }
    requires some_grown { (SomeGrown work.old (Some clash)) ×
        Fitting (by_class file.now session.now (meant class) i r) }
    ensures { Gathers (by_class file.now session.now (meant class) i r)
        work.old (Some clash) result work.new }
{
    if fits(file, session, class, i, r) {
        return follow(file, session, class, i, r, work, clash);
    }
    Some(clash)
}

// What follows a link on a symbol, if it is at the depth. The rows of a symbol from a state stand side by side.
fn by_rows(
    file: &[u8],
    session: &[u8; SIZE],
    symbol: u8,
    i: usize,
    work: &mut [u8; WORK],
    mut clash: bool,
) -> Option<bool>
    requires usable { (Usable file.now session.now) × (i < link_count session.now) }
    requires some_grown { (SomeGrown work.old (Some clash)) × Fitting (by_rows file.now session.now symbol i) }
    ensures { Gathers (by_rows file.now session.now symbol i)
        work.old (Some clash) result work.new }
{
    if links::level(session, i) != links::depth(session) {
        return Some(clash);
    }
    let class = table::class_of(file, symbol);
    for r in table::rows_from(file, symbol, links::state(session, i)) {
        clash = by_row(file, session, class, i, r, work, clash)?;
    }
    Some(clash)
}

// All that follows the links of a session on a symbol.
pub fn grow(file: &[u8], session: &[u8; SIZE], symbol: u8, work: &mut [u8; WORK]) -> Option<bool>
    requires { (Usable file.now session.now) ×
        Fitting (grow_of (table_of file.now) (session_of session.now) symbol) }
    ensures { Grown (grow_of (table_of file.now) (session_of session.now) symbol) result
        work.new }
{
    step_drafts::clear(work);
    let mut clash = false;
    for i in 0..links::count(session) {
        clash = by_rows(file, session, symbol, i, work, clash)?;
    }
    Some(clash)
}
