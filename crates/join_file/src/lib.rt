// The file of the joined table, part after part. Each function puts its part from a place on, where there is room for
// it, and answers the place after it.
#![tactic(auto)]

ghost use Rattle.std.specs.Prelude.{◌≡◌, ◌≤◌, length};
ghost use Rattle.words.specs.Calls.{Room, Appended};
ghost use Rattle.meaning.specs.Parts.{head_size};
ghost use Rattle.meaning.specs.Runs.{said};
ghost use Rattle.meaning.specs.Joining.{pairs_of};
ghost use Rattle.sets.specs.Sets.{members};
ghost use Rattle.table.specs.File.{table_of};
ghost use Rattle.join_meaning.specs.Laid.{entry_bytes, set_of, row_bytes, rows_bytes};
ghost use Rattle.join_file.specs.Written.{key_row, rows_in, paired_file, head_of, entries_bytes, sets_bytes};
ghost use Rattle.join_file.specs.Written.{Paired, TwoTables, Key, Keys, Laying};

use join_shelf::SHELF;
use table::{
    CLASS_COUNT, CLASSES_START, FINAL_START, ROW_SIZE, ROWS_START, SET_SIZE, STARTING_START,
};
use words::put_bytes;

// How many markers and rows the joined table has, and how many bytes its words have together.
#[derive(Clone, Copy)]
pub struct Sizes {
    pub markers: usize,
    pub rows: usize,
    pub words: usize,
}

// Two numbers, each in two bytes, the lowest first.
fn put_entry(out: &mut [u8], at: usize, start: usize, size: usize) -> usize
    requires { Room out.old at (entry_bytes start size) }
    ensures { Appended out.old at (entry_bytes start size) result out.new }
{
    let next = put_bytes(out, at, &start.to_le_bytes()[..2]);
    put_bytes(out, next, &size.to_le_bytes()[..2])
}

// The five entries, by how long the rows and the words are.
fn put_entries(out: &mut [u8], at: usize, rows: usize, words: usize) -> usize
    requires { (Room out.old at (entries_bytes rows words)) × (rows ≤ 65535) }
    ensures { Appended out.old at (entries_bytes rows words) result out.new }
{
    let second = put_entry(out, at, CLASSES_START, CLASS_COUNT);
    let third = put_entry(out, second, STARTING_START, SET_SIZE);
    let fourth = put_entry(out, third, FINAL_START, SET_SIZE);
    let fifth = put_entry(out, fourth, ROWS_START, rows);
    put_entry(out, fifth, ROWS_START + rows, words)
}

// A row by its key, and where its word starts. A length is below 256, so that its second byte is the zero behind it.
fn put_row(out: &mut [u8], at: usize, key: &[u8], start: usize) -> usize
    requires { (Room out.old at (row_bytes start (key_row key.now))) × (Key key.now) }
    ensures { Appended out.old at (row_bytes start (key_row key.now)) result out.new }
{
    let next = put_bytes(out, at, &[key[0], key[1], key[3], key[2]]);
    put_entry(out, next, start, key.len() - 4)
}

// All rows; each word starts where the one before ends.
fn put_rows(out: &mut [u8], at: usize, count: usize, rows: &[u8; SHELF]) -> usize
    requires room { Room out.old at (rows_bytes 0 (rows_in rows.now count)) }
    requires keys { Keys rows.now count }
    ensures { Appended out.old at
        (rows_bytes 0 (rows_in rows.now count))
        result out.new }
{
    let mut end = at;
    let mut start: usize = 0;
    for i in 0..count {
        let key = join_shelf::word(rows, i);
        end = put_row(out, end, key, start);
        start += key.len() - 4;
    }
    end
}

// All words, in the order of their rows.
fn put_words(out: &mut [u8], at: usize, count: usize, rows: &[u8; SHELF]) -> usize
    requires room { Room out.old at (said (rows_in rows.now count)) }
    requires keys { Keys rows.now count }
    ensures { Appended out.old at
        (said (rows_in rows.now count)) result out.new }
{
    let mut end = at;
    for i in 0..count {
        let key = join_shelf::word(rows, i);
        end = put_bytes(out, end, &key[4..]);
    }
    end
}

// The pairs of two sets: each member of the first stands for as many states as the second table has.
fn pairs(one: u64, other: u64, n: usize) -> u64
    requires { Paired one other n }
    ensures { result ≡ set_of (pairs_of n (members one) (members other)) }
{
    let mut all: u64 = 0;
    let mut rest = one;
    while rest != 0 {
        let p = sets::lowest(rest) as usize;
        all |= other << (p * n);
        rest = sets::without_lowest(rest);
    }
    all
}

// The starting and the final set.
fn put_sets(first: &[u8], second: &[u8], out: &mut [u8], at: usize) -> usize
    requires { (TwoTables first.now second.now)
        × (Room out.old at (sets_bytes (table_of first.now) (table_of second.now))) }
    ensures { Appended out.old at
        (sets_bytes (table_of first.now) (table_of second.now)) result out.new }
{
    let n = table::states(second);
    let starting = pairs(table::starting_set(first), table::starting_set(second), n);
    let accepting = pairs(table::final_set(first), table::final_set(second), n);
    let next = put_bytes(out, at, &starting.to_le_bytes());
    put_bytes(out, next, &accepting.to_le_bytes())
}

// The first eight bytes.
fn put_head(first: &[u8], second: &[u8], out: &mut [u8], markers: usize, size: usize) -> usize
    requires { (TwoTables first.now second.now) × (head_size ≤ length out.old) × (markers ≤ 255) }
    ensures { Appended out.old 0
        (head_of (table_of first.now) (table_of second.now) markers size) result out.new }
{
    let states = table::states(first) * table::states(second);
    let depth = table::depth_cap(first);
    let waiting = table::waiting_cap(second);
    let next = put_bytes(out, 0, &[1, states as u8, markers as u8, depth as u8]);
    put_entry(out, next, waiting, size)
}

// The whole file.
pub fn write(first: &[u8], second: &[u8], out: &mut [u8], sizes: Sizes, rows: &[u8; SHELF]) -> usize
    requires { Laying first.now second.now sizes rows.now out.old }
    ensures { Appended out.old 0
        (paired_file first.now second.now sizes rows.now) result out.new }
{
    let long = ROW_SIZE * sizes.rows;
    let contents = put_head(
        first,
        second,
        out,
        sizes.markers,
        ROWS_START + long + sizes.words,
    );
    let classes = put_entries(out, contents, long, sizes.words);
    let starting = put_bytes(out, classes, &first[CLASSES_START..STARTING_START]);
    let body = put_sets(first, second, out, starting);
    let words = put_rows(out, body, sizes.rows, rows);
    put_words(out, words, sizes.rows, rows)
}
