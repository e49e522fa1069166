// The marks and the rows of the joined table: each row of the first is read from each state of the second, and what it
// gives is put on a shelf.
ghost use Rattle.std.specs.Prelude.{◌≡◌, ◌<◌, Some};
ghost use Rattle.meaning.specs.Table.{return};
ghost use Rattle.meaning.specs.Joining.{pair_number};
ghost use Rattle.table.specs.File.{row_count, row_at, table_of};
ghost use Rattle.table.specs.Good.{first_edition as edition, GoodFile};
ghost use Rattle.join_shelf.specs.Shelved.{word_at, Shelved, SomeShelved, Gathers};
ghost use Rattle.join.specs.Gathering.{Small, At, AllMarks, Marked, MarkHere, call_goal, close_goal, plan_of};
ghost use Rattle.join.specs.Gathering.{mark_of, given_from, given_at, given_by, all_keys};
ghost use Rattle.join.specs.declared.gathering.Wanted.TheVariants.{Rows};

use crate::reading::{Cursor, Goal, TAPE, WRITTEN, read};
use join_shelf::{SHELF, Stock, start, word};
use table::Class;
use words::{copy, wide};

// What the rows of the first are read for: the marks that call rows push; or the joined rows, once all marks stand.
#[derive(Clone, Copy)]
pub enum Wanted {
    Marks,
    Rows { count: usize },
}

// How a row is read: not at all; from an empty stack, with what an ending gives; or from the list of each mark.
#[derive(Clone, Copy)]
enum Plan {
    Skip,
    Read { goal: Goal },
    FromMarks { count: usize },
}

// A row of the first, and the state of the second that it is read from.
#[derive(Clone, Copy)]
struct Spot {
    row: usize,
    state: usize,
}

// State (p, q) of the joined table.
fn pair_number(second: &[u8], p: usize, q: usize) -> u8
    requires { (GoodFile edition second.now) × (pair_number (table_of second.now).states p q < 256) }
    ensures { result ≡ pair_number (table_of second.now).states p q }
{
    (p * table::states(second) + q) as u8
}

// What all joined rows of a row share: their symbol, their first state, and what their last state is counted from.
fn shared(first: &[u8], second: &[u8], at: Spot) -> (u8, u8, u8)
    requires { At first.now second.now at.row at.state }
    ensures { result ≡ (
      (row_at first.now at.row).symbol,
      pair_number (table_of second.now).states (row_at first.now at.row).from at.state,
      pair_number (table_of second.now).states (row_at first.now at.row).to 0,
    ) }
{
    let symbol = table::row_symbol(first, at.row) as u8;
    let from = pair_number(second, table::row_from(first, at.row), at.state);
    let base = pair_number(second, table::row_to(first, at.row), 0);
    (symbol, from, base)
}

// What an ending of a call row gives.
fn call_goal(first: &[u8], second: &[u8], at: Spot, wanted: Wanted) -> Goal
    requires { At first.now second.now at.row at.state }
    ensures { result ≡ call_goal wanted first.now second.now at.row at.state }
{
    let marker = table::row_marker(first, at.row) as u8;
    match wanted {
        Wanted::Marks => Goal::Mark { marker },
        Wanted::Rows { count } => {
            let (symbol, from, base) = shared(first, second, at);
            Goal::Call {
                symbol,
                from,
                base,
                marker,
                marks: count,
            }
        }
    }
}

// What an ending of another row gives, with the number of the mark that the reading started from.
fn close_goal(first: &[u8], second: &[u8], at: Spot, number: usize) -> Goal
    requires { (At first.now second.now at.row at.state) × (number < 256) }
    ensures { result ≡ close_goal first.now second.now at.row at.state number }
{
    let (symbol, from, base) = shared(first, second, at);
    let marker = number as u8;
    Goal::Close {
        symbol,
        from,
        base,
        marker,
    }
}

// By the class of a row's symbol.
fn planned(first: &[u8], second: &[u8], at: Spot, wanted: Wanted) -> Plan
    requires { At first.now second.now at.row at.state }
    ensures { result
        ≡ plan_of wanted ((table_of first.now).class (row_at first.now at.row).symbol)
        first.now second.now at.row at.state }
{
    match table::row_class(first, at.row) {
        Class::Unused => Plan::Skip,
        Class::Call => Plan::Read {
            goal: call_goal(first, second, at, wanted),
        },
        Class::Return => match wanted {
            Wanted::Marks => Plan::Skip,
            Wanted::Rows { count } => Plan::FromMarks { count },
        },
        Class::Internal => match wanted {
            Wanted::Marks => Plan::Skip,
            Wanted::Rows { count: _ } => Plan::Read {
                goal: close_goal(first, second, at, 0),
            },
        },
    }
}

// What a return row gives from the list of one mark, if that has its marker.
fn return_row(
    first: &[u8],
    second: &[u8],
    at: Spot,
    i: usize,
    marks: &[u8; SHELF],
    rows: &mut [u8; SHELF],
    tape: &mut [u8; TAPE],
    shelf: Stock,
) -> Option<Stock>
    requires at { At first.now second.now at.row at.state }
    requires mark_here { MarkHere first.now second.now marks.now i }
    requires some_shelved { SomeShelved rows.old (Some shelf) }
    ensures { Gathers (given_from first.now second.now at.row at.state
        (mark_of (word_at marks.now i))) rows.old (Some shelf) result rows.new }
{
    let key = word(marks, i);
    if wide(key[0]) != table::row_marker(first, at.row) {
        return Some(shelf);
    }
    let left = &key[1..];
    copy(tape, 0, left);
    let goal = close_goal(first, second, at, i + 1);
    let cursor = Cursor {
        state: at.state,
        height: left.len(),
        end: WRITTEN,
    };
    let read_word = table::row_word(first, at.row);
    read(second, read_word, cursor, goal, marks, rows, tape, shelf)
}

// What a return row gives from all marks.
fn return_rows(
    first: &[u8],
    second: &[u8],
    at: Spot,
    count: usize,
    marks: &[u8; SHELF],
    rows: &mut [u8; SHELF],
    tape: &mut [u8; TAPE],
    shelf: Stock,
) -> Option<Stock>
    requires at { (At first.now second.now at.row at.state)
        × ((table_of first.now).class (row_at first.now at.row).symbol ≡ return) }
    requires all_marks { AllMarks first.now second.now marks.now count }
    requires some_shelved { SomeShelved rows.old (Some shelf) }
    ensures { Gathers (given_at (Rows count) first.now second.now at.row at.state)
        rows.old (Some shelf) result rows.new }
{
    let mut made = shelf;
    for i in 0..count {
        made = return_row(first, second, at, i, marks, rows, tape, made)?;
    }
    Some(made)
}

// What a row gives, read from a state.
fn gather_at(
    first: &[u8],
    second: &[u8],
    wanted: Wanted,
    at: Spot,
    marks: &[u8; SHELF],
    rows: &mut [u8; SHELF],
    tape: &mut [u8; TAPE],
    shelf: Stock,
) -> Option<Stock>
    requires at { At first.now second.now at.row at.state }
    requires marked { Marked wanted first.now second.now marks.now }
    requires some_shelved { SomeShelved rows.old (Some shelf) }
    ensures { Gathers (given_at wanted first.now second.now at.row at.state)
        rows.old (Some shelf) result rows.new }
{
    match planned(first, second, at, wanted) {
        Plan::Skip => Some(shelf),
        Plan::Read { goal } => {
            let cursor = Cursor {
                state: at.state,
                height: 0,
                end: WRITTEN,
            };
            let read_word = table::row_word(first, at.row);
            read(second, read_word, cursor, goal, marks, rows, tape, shelf)
        }
        Plan::FromMarks { count } => {
            return_rows(first, second, at, count, marks, rows, tape, shelf)
        }
    }
}

// What a row gives, from all states.
fn gather_row(
    first: &[u8],
    second: &[u8],
    wanted: Wanted,
    row: usize,
    marks: &[u8; SHELF],
    rows: &mut [u8; SHELF],
    tape: &mut [u8; TAPE],
    shelf: Stock,
) -> Option<Stock>
    requires small { (Small first.now second.now) × (row < row_count first.now) }
    requires marked { Marked wanted first.now second.now marks.now }
    requires some_shelved { SomeShelved rows.old (Some shelf) }
    ensures { Gathers (given_by wanted first.now second.now row)
        rows.old (Some shelf) result rows.new }
{
    let mut made = shelf;
    for state in 0..table::states(second) {
        let at = Spot { row, state };
        made = gather_at(first, second, wanted, at, marks, rows, tape, made)?;
    }
    Some(made)
}

// What all rows give, on a shelf. While marks are gathered no mark is looked up: their room may hold anything.
pub fn gather(
    first: &[u8],
    second: &[u8],
    wanted: Wanted,
    marks: &[u8; SHELF],
    rows: &mut [u8; SHELF],
    tape: &mut [u8; TAPE],
) -> Option<Stock>
    requires small { Small first.now second.now }
    requires marked { Marked wanted first.now second.now marks.now }
    ensures { Shelved (all_keys wanted (table_of first.now) (table_of second.now)) result rows.new }
{
    let mut made = start();
    for row in 0..table::row_count(first) {
        made = gather_row(first, second, wanted, row, marks, rows, tape, made)?;
    }
    Some(made)
}
