// What a good file says. These ask for a file that `check` took, and for a row that is there.
ghost use Rattle.std.specs.Prelude.{◌≡◌, ◌<◌, ◌≤◌, length};
ghost use Rattle.meaning.specs.Parts.{classes_start};
ghost use Rattle.words.specs.Lists.{Exact};
ghost use Rattle.table.specs.File.{row_count, row_at, word_of, table_of};
ghost use Rattle.sets.specs.Sets.{members};
ghost use Rattle.table.specs.Good.{first_edition, GoodFile};
ghost use Rattle.meaning.specs.Table.{class_of as class_of_number};
ghost use Rattle.table.specs.Calls.{meant, WordIn, RowBefore, FirstRow, RowsFrom};

use crate::parts::{
    CLASSES_START, FINAL_START, ROW_SIZE, ROWS_LENGTH_AT, ROWS_START, STARTING_START,
};
use std::ops::Range;
use words::{first_not, load_eight, load_two, wide};

pub fn states(file: &[u8]) -> usize
    requires { GoodFile first_edition file.now }
    ensures { result ≡ (table_of file.now).states }
{
    wide(file[1])
}

pub fn markers(file: &[u8]) -> usize
    requires { GoodFile first_edition file.now }
    ensures { result ≡ (table_of file.now).markers }
{
    wide(file[2])
}

pub fn depth_cap(file: &[u8]) -> usize
    requires { GoodFile first_edition file.now }
    ensures { result ≡ (table_of file.now).depth_cap }
{
    wide(file[3])
}

pub fn waiting_cap(file: &[u8]) -> usize
    requires { GoodFile first_edition file.now }
    ensures { result ≡ (table_of file.now).waiting_cap }
{
    load_two(file, 4)
}

pub fn starting_set(file: &[u8]) -> u64
    requires { GoodFile first_edition file.now }
    ensures { members result ≡ (table_of file.now).starting }
{
    load_eight(file, STARTING_START)
}

pub fn final_set(file: &[u8]) -> u64
    requires { GoodFile first_edition file.now }
    ensures { members result ≡ (table_of file.now).final }
{
    load_eight(file, FINAL_START)
}

#[derive(Clone, Copy, PartialEq, Eq)]
pub enum Class {
    Unused,
    Call,
    Return,
    Internal,
}

// "0 unused, 1 call, 2 return, 3 internal": no other number stands in a good file.
impl From<u8> for Class {
    ghost from_gives = { λ number class. meant class ≡ class_of_number number };

    fn from(number: u8) -> Class {
        match number {
            0 => Class::Unused,
            1 => Class::Call,
            2 => Class::Return,
            _ => Class::Internal,
        }
    }
}

pub fn class_of(file: &[u8], symbol: u8) -> Class
    requires { GoodFile first_edition file.now }
    ensures { meant result ≡ (table_of file.now).class symbol }
{
    Class::from(file[CLASSES_START + wide(symbol)])
}

// Asks only for the entries, so that the check of a file can count its rows too.
pub fn row_count(file: &[u8]) -> usize
    requires { classes_start ≤ length file.now }
    ensures { result ≡ row_count file.now }
{
    load_two(file, ROWS_LENGTH_AT) / ROW_SIZE
}

pub fn row_symbol(file: &[u8], i: usize) -> usize
    requires { (GoodFile first_edition file.now) × (i < row_count file.now) }
    ensures { result ≡ (row_at file.now i).symbol }
{
    wide(file[ROWS_START + ROW_SIZE * i])
}

// The class of a row's symbol.
pub fn row_class(file: &[u8], i: usize) -> Class
    requires { (GoodFile first_edition file.now) × (i < row_count file.now) }
    ensures { meant result ≡ (table_of file.now).class (row_at file.now i).symbol }
{
    class_of(file, file[ROWS_START + ROW_SIZE * i])
}

pub fn row_from(file: &[u8], i: usize) -> usize
    requires { (GoodFile first_edition file.now) × (i < row_count file.now) }
    ensures { result ≡ (row_at file.now i).from }
{
    wide(file[ROWS_START + ROW_SIZE * i + 1])
}

pub fn row_to(file: &[u8], i: usize) -> usize
    requires { (GoodFile first_edition file.now) × (i < row_count file.now) }
    ensures { result ≡ (row_at file.now i).to }
{
    wide(file[ROWS_START + ROW_SIZE * i + 2])
}

pub fn row_marker(file: &[u8], i: usize) -> usize
    requires { (GoodFile first_edition file.now) × (i < row_count file.now) }
    ensures { result ≡ (row_at file.now i).marker }
{
    wide(file[ROWS_START + ROW_SIZE * i + 3])
}

// A row's word, as a part of the lent file.
pub fn row_word(file: &[u8], i: usize) -> &[u8]
    requires { WordIn file.now i }
    ensures { result.now ≡ word_of file.now i }
{
    let at = ROWS_START + ROW_SIZE * i;
    let start = ROWS_START + ROW_SIZE * row_count(file) + load_two(file, at + 4);
    let end = start + wide(file[at + 6]);
    &file[start..end]
}

// Whether a row stands before those of a symbol from a state.
fn row_before(file: &[u8], i: usize, symbol: u8, from: usize) -> bool
    requires { (GoodFile first_edition file.now) × (i < row_count file.now) }
    ensures { Exact (RowBefore (row_at file.now i) symbol from) result }
{
    let here = row_symbol(file, i);
    here < wide(symbol) || here == wide(symbol) && row_from(file, i) < from
}

// The place of the first row of a symbol from a state, or where it would stand: rows rise by symbol and then by `from`,
// so that halving finds it.
pub fn first_row(file: &[u8], symbol: u8, from: usize) -> usize
    requires { GoodFile first_edition file.now }
    ensures { FirstRow file.now symbol from result }
{
    first_not(row_count(file), |i| row_before(file, i, symbol, from))
}

// The rows of a symbol from a state, which stand side by side.
pub fn rows_from(file: &[u8], symbol: u8, from: usize) -> Range<usize>
    requires { GoodFile first_edition file.now }
    ensures { RowsFrom file.now symbol from result.start result.end }
{
    let start = first_row(file, symbol, from);
    let n = row_count(file);
    let end = (start..n)
        .find(|r| row_symbol(file, *r) != wide(symbol) || row_from(file, *r) != from)
        .unwrap_or(n);
    start..end
}
