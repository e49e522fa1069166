// The rows of a rule file: whether each fits, and whether they rise.
ghost use Rattle.std.specs.Prelude.{◌+◌};
ghost use Rattle.words.specs.Lists.{Exact};
ghost use Rattle.meaning.specs.Table.{MarkFits};
ghost use Rattle.table.specs.File.{row_at};
ghost use Rattle.table.specs.Good.{first_edition, Contents, MarkAt, RowFits, Rising, Rows};
ghost use Rattle.table.specs.Calls.{meant, RowIn, WordIn, Headed};

use table::{CLASSES_START, Class, ROW_SIZE, ROWS_START, WORDS_LENGTH_AT, row_count, row_word};
use words::{compare, load_two, wide};

// Whether a marker suits a class.
fn mark_suits(class: Class, markers: usize, marker: usize) -> bool
    ensures { Exact (MarkFits (meant class) markers marker) result }
{
    match class {
        Class::Unused => false,
        Class::Call | Class::Return => (1..=markers).contains(&marker),
        Class::Internal => marker == 0,
    }
}

// Whether a row's marker suits the class of its symbol.
fn mark_fits(file: &[u8], i: usize) -> bool
    requires { RowIn file.now i }
    ensures { Exact (MarkAt file.now i) result }
{
    let at = ROWS_START + ROW_SIZE * i;
    let symbol = wide(file[at]);
    let class = Class::from(file[CLASSES_START + symbol]);
    mark_suits(class, wide(file[2]), wide(file[at + 3]))
}

// Whether a row keeps the rules, but for its place among the others.
fn row_fits(file: &[u8], i: usize) -> bool
    requires { RowIn file.now i }
    ensures { Exact (RowFits file.now i) result }
{
    let at = ROWS_START + ROW_SIZE * i;
    let states = wide(file[1]);
    mark_fits(file, i)
        && wide(file[at + 1]) < states
        && wide(file[at + 2]) < states
        && load_two(file, at + 4) + wide(file[at + 6]) <= load_two(file, WORDS_LENGTH_AT)
        && wide(file[at + 7]) == 0
}

// A row's symbol, from, marker and to as one number, which rises as they do.
fn row_head(file: &[u8], i: usize) -> usize
    requires { RowIn file.now i }
    ensures { Headed (row_at file.now i) result }
{
    let at = ROWS_START + ROW_SIZE * i;
    let c = wide(file[at]) * 256 + wide(file[at + 1]);
    (c * 256 + wide(file[at + 3])) * 256 + wide(file[at + 2])
}

// Whether the row after row `i` stands above it. Most rows differ in their heads, so that words are seldom looked at.
fn rises(file: &[u8], i: usize, head: usize, next: usize) -> bool
    requires word_in { (WordIn file.now i) × (Headed (row_at file.now i) head) }
    requires word_in_2 { (WordIn file.now (i + 1)) × (Headed (row_at file.now (i + 1)) next) }
    ensures { Exact (Rising file.now i) result }
{
    head < next || (head == next && compare(row_word(file, i), row_word(file, i + 1)).is_lt())
}

// Whether all rows fit and each stands above the one before it.
pub fn rows(file: &[u8]) -> bool
    requires { Contents first_edition file.now }
    ensures { Exact (Rows file.now) result }
{
    let n = row_count(file);
    if n == 0 {
        return true;
    }
    if !row_fits(file, 0) {
        return false;
    }
    let mut last = row_head(file, 0);
    for i in 0..n - 1 {
        if !row_fits(file, i + 1) {
            return false;
        }
        let next = row_head(file, i + 1);
        if !rises(file, i, last, next) {
            return false;
        }
        last = next;
    }
    true
}
