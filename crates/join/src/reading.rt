// The second table reads a word of the first: every run over it from a state and a stack, and what each ending gives is
// put on a shelf.
ghost use Rattle.std.specs.Prelude.{◌≡◌, [], ◌∷◌, reverse, ◌+◌, ◌<◌, ◌≤◌, Some};
ghost use Rattle.words.specs.Lists.{each};
ghost use Rattle.meaning.specs.Table.{return};
ghost use Rattle.meaning.specs.Runs.{config};
ghost use Rattle.meaning.specs.Joining.{after_row, endings};
ghost use Rattle.table.specs.File.{row_count, word_of, row_at, table_of};
ghost use Rattle.table.specs.Good.{first_edition, GoodFile};
ghost use Rattle.table.specs.Calls.{meant};
ghost use Rattle.join_shelf.specs.Shelved.{words_of, SomeShelved, Gathers};
ghost use Rattle.join.specs.Reading.{config_of, Tested, height_after, Exchanged, Appended, goes_on, marks_of};
ghost use Rattle.join.specs.Reading.{keys_of, Suited, findings, findings_of, Reads, Branches, Ranked, Numbered};
ghost use Rattle.join.specs.Reading.{NumberOf, Untouched};

use join_shelf::{SHELF, Stock, place, put};
use table::Class;
use words::{put_bytes, wide};

// The tape: the stack from its bottom, 32 bytes, and from there on what was written.
pub const TAPE: usize = 4128;

pub const WRITTEN: usize = 32;

// Where a reading stands: its state, how high its stack is, and where what it wrote ends on the tape.
#[derive(Clone, Copy)]
pub struct Cursor {
    pub state: usize,
    pub height: usize,
    pub end: usize,
}

// A row of a class that may be taken from there.
#[derive(Clone, Copy)]
pub struct Turn {
    pub class: Class,
    pub row: usize,
    pub cursor: Cursor,
}

// What an ending gives: the mark that a joined call row pushes; a joined call row, its marker's number looked up among
// so many marks; or a joined row that must end with nothing on the second's stack. Its state is a number above `base`.
#[derive(Clone, Copy)]
pub enum Goal {
    Mark {
        marker: u8,
    },
    Call {
        symbol: u8,
        from: u8,
        base: u8,
        marker: u8,
        marks: usize,
    },
    Close {
        symbol: u8,
        from: u8,
        base: u8,
        marker: u8,
    },
}

// Whether a row can be taken, with this stack.
fn fits(second: &[u8], turn: Turn, tape: &[u8; TAPE]) -> bool
    requires { (GoodFile first_edition second.now) × (turn.row < row_count second.now) × (turn.cursor.height ≤ 32) }
    ensures { Tested (meant turn.class) (row_at second.now turn.row) turn.cursor tape.now result }
{
    let height = turn.cursor.height;
    if turn.cursor.state != table::row_from(second, turn.row) {
        return false;
    }
    match turn.class {
        Class::Unused => false,
        Class::Call | Class::Internal => true,
        Class::Return => {
            0 < height && wide(tape[height - 1]) == table::row_marker(second, turn.row)
        }
    }
}

// How high the stack is after a row of a class.
fn height_after(class: Class, height: usize) -> usize
    requires { (height < 32) × (meant class ≡ return → 0 < height) }
    ensures { result ≡ height_after (meant class) height }
{
    match class {
        Class::Unused | Class::Internal => height,
        Class::Call => height + 1,
        Class::Return => height - 1,
    }
}

// Puts a byte at a place, and gives the one that stood there.
fn exchange(tape: &mut [u8; TAPE], at: usize, byte: u8) -> u8
    requires { at < 4128 }
    ensures { Exchanged tape.old at byte result tape.new }
{
    std::mem::replace(&mut tape[at], byte)
}

// Appends the word of a row to what was written so far, and gives where that ends now.
fn append(second: &[u8], r: usize, tape: &mut [u8; TAPE], end: usize) -> usize
    requires { (GoodFile first_edition second.now) × (r < row_count second.now) × (end + 255 ≤ 4128) }
    ensures { Appended tape.old end (word_of second.now r) result tape.new }
{
    let word = table::row_word(second, r);
    put_bytes(tape, end, word)
}

// Puts the mark of a marker and the stack.
fn put_mark(marker: u8, stack: &[u8], rows: &mut [u8; SHELF], shelf: Stock) -> Option<Stock>
    requires { SomeShelved rows.old (Some shelf) }
    ensures { Gathers ((marker ∷ stack.now) ∷ []) rows.old (Some shelf) result rows.new }
{
    put(rows, Some(shelf), &[marker], stack)
}

// Puts a joined row.
fn put_row(
    symbol: u8,
    from: u8,
    marker: u8,
    to: u8,
    out: &[u8],
    rows: &mut [u8; SHELF],
    shelf: Stock,
) -> Option<Stock>
    requires { SomeShelved rows.old (Some shelf) }
    ensures { Gathers ((symbol ∷ from ∷ marker ∷ to ∷ out.now) ∷ [])
        rows.old (Some shelf) result rows.new }
{
    put(rows, Some(shelf), &[symbol, from, marker, to], out)
}

// The number of a mark, from 1.
fn mark_number(marks: &[u8; SHELF], count: usize, marker: u8, stack: &[u8]) -> u8
    requires { Numbered marks.now count }
    ensures { NumberOf (words_of marks.now count) (marker ∷ stack.now) result }
{
    (place(marks, count, &[marker], stack) + 1) as u8
}

// What an ending gives, of the whole stack and all that was written.
fn found(
    state: usize,
    stack: &[u8],
    out: &[u8],
    goal: Goal,
    marks: &[u8; SHELF],
    rows: &mut [u8; SHELF],
    shelf: Stock,
) -> Option<Stock>
    requires ranked { Ranked marks.now goal }
    requires suited { Suited (marks_of marks.now goal) goal (config state (reverse stack.now) out.now ∷ []) }
    requires some_shelved { SomeShelved rows.old (Some shelf) }
    ensures { Gathers (keys_of (marks_of marks.now goal) goal
        (config state (reverse stack.now) out.now))
        rows.old (Some shelf) result rows.new }
{
    match goal {
        Goal::Mark { marker } => put_mark(marker, stack, rows, shelf),
        Goal::Call {
            symbol,
            from,
            base,
            marker,
            marks: count,
        } => {
            let number = mark_number(marks, count, marker, stack);
            let to = (wide(base) + state) as u8;
            put_row(symbol, from, number, to, out, rows, shelf)
        }
        Goal::Close {
            symbol,
            from,
            base,
            marker,
        } => {
            if !stack.is_empty() {
                return Some(shelf);
            }
            let to = (wide(base) + state) as u8;
            put_row(symbol, from, marker, to, out, rows, shelf)
        }
    }
}

// All endings that go on by a row, if it fits. The place that a call's marker takes gets back what it held.
#[cycle(branch_read)]
fn branch(
    second: &[u8],
    rest: &[u8],
    turn: Turn,
    goal: Goal,
    marks: &[u8; SHELF],
    rows: &mut [u8; SHELF],
    tape: &mut [u8; TAPE],
    shelf: Stock,
) -> Option<Stock>
    requires branches { Branches second.now turn rest.now }
    requires ranked { Ranked marks.now goal }
    requires suited { Suited (marks_of marks.now goal) goal
        (each (endings (table_of second.now) rest.now) (goes_on second.now turn tape.old)) }
    requires some_shelved { SomeShelved rows.old (Some shelf) }
    ensures gathers { Gathers (findings_of second.now (marks_of marks.now goal) goal
        rest.now (goes_on second.now turn tape.old))
        rows.old (Some shelf) result rows.new }
    ensures untouched { Untouched tape.old turn.cursor.end tape.new }
{
    if !fits(second, turn, tape) {
        return Some(shelf);
    }
    let height = turn.cursor.height;
    let kept = exchange(tape, height, table::row_marker(second, turn.row) as u8);
    let end = append(second, turn.row, tape, turn.cursor.end);
    let class = turn.class;
    let next = Cursor {
        state: table::row_to(second, turn.row),
        height: height_after(class, height),
        end,
    };
    let made = read(second, rest, next, goal, marks, rows, tape, shelf);
    exchange(tape, height, kept);
    made
}

// All endings of the runs over a word, from a cursor: by each row of its first byte from the state. The stack and what
// was written before are left as they were.
#[cycle(branch_read)]
pub fn read(
    second: &[u8],
    word: &[u8],
    cursor: Cursor,
    goal: Goal,
    marks: &[u8; SHELF],
    rows: &mut [u8; SHELF],
    tape: &mut [u8; TAPE],
    shelf: Stock,
) -> Option<Stock>
    requires reads { Reads second.now cursor word.now }
    requires ranked { Ranked marks.now goal }
    requires suited { Suited (marks_of marks.now goal) goal
        (endings (table_of second.now) word.now (config_of cursor tape.old)) }
    requires some_shelved { SomeShelved rows.old (Some shelf) }
    ensures gathers { Gathers (findings second.now (marks_of marks.now goal) goal
        word.now (config_of cursor tape.old))
        rows.old (Some shelf) result rows.new }
    ensures untouched { Untouched tape.old cursor.end tape.new }
{
    let Some((symbol, rest)) = word.split_first() else {
        let all = &tape[..];
        let stack = &all[..cursor.height];
        let written = &all[WRITTEN..cursor.end];
        return found(cursor.state, stack, written, goal, marks, rows, shelf);
    };
    let class = table::class_of(second, *symbol);
    let mut made = shelf;
    for row in table::rows_from(second, *symbol, cursor.state) {
        let turn = Turn { class, row, cursor };
        made = branch(second, rest, turn, goal, marks, rows, tape, made)?;
    }
    Some(made)
}
