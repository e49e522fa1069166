// The parts of a rule file, in file order: each says whether the file keeps that part's rules.
ghost use Rattle.std.specs.Prelude.{◌+◌, ◌^◌, ◌≤◌, ◌<◌, length};
ghost use Rattle.words.specs.Lists.{Exact};
ghost use Rattle.meaning.specs.Parts.{rows_start};
ghost use Rattle.table.specs.Good.{first_edition, Head, FileEntry, Contents, Classes, Sets};

use table::{
    CLASS_COUNT, CLASSES_ENTRY, CLASSES_START, FINAL_ENTRY, FINAL_START, HEAD_SIZE, ROW_SIZE,
    ROWS_ENTRY, ROWS_START, SET_SIZE, STARTING_ENTRY, STARTING_START, WORDS_ENTRY, WORDS_LENGTH_AT,
    row_count,
};
use words::{load_eight, load_two, together, wide};

// What edition 1 allows at most.
const EDITION: usize = 1;

const MOST_STATES: usize = 64;

const MOST_MARKERS: usize = 64;

const MOST_DEPTH: usize = 32;

const MOST_WAITING: usize = 512;

const MOST_ROWS: usize = 256;

const MOST_WORDS: usize = 4096;

pub fn head(file: &[u8]) -> bool
    ensures { Exact (Head first_edition file.now) result }
{
    file.len() >= HEAD_SIZE
        && wide(file[0]) == EDITION
        && (1..=MOST_STATES).contains(&wide(file[1]))
        && wide(file[2]) <= MOST_MARKERS
        && (1..=MOST_DEPTH).contains(&wide(file[3]))
        && load_two(file, 4) <= MOST_WAITING
        && load_two(file, 6) == file.len()
}

// Whether the entry at `at` has this start and this length.
fn entry(file: &[u8], at: usize, start: usize, size: usize) -> bool
    requires { at + 4 ≤ length file.now }
    ensures { Exact (FileEntry file.now at start size) result }
{
    load_two(file, at) == start && load_two(file, at + 2) == size
}

pub fn contents(file: &[u8]) -> bool
    ensures { Exact (Contents first_edition file.now) result }
{
    if file.len() < CLASSES_START {
        return false;
    }
    let rows = row_count(file);
    let bytes = load_two(file, WORDS_LENGTH_AT);
    entry(file, CLASSES_ENTRY, CLASSES_START, CLASS_COUNT)
        && entry(file, STARTING_ENTRY, STARTING_START, SET_SIZE)
        && entry(file, FINAL_ENTRY, FINAL_START, SET_SIZE)
        && rows <= MOST_ROWS
        && entry(file, ROWS_ENTRY, ROWS_START, ROW_SIZE * rows)
        && bytes <= MOST_WORDS
        && entry(file, WORDS_ENTRY, ROWS_START + ROW_SIZE * rows, bytes)
        && ROWS_START + ROW_SIZE * rows + bytes == file.len()
}

// No class has a bit above the lowest two exactly when all together have none.
pub fn classes(file: &[u8]) -> bool
    requires { rows_start ≤ length file.now }
    ensures { Exact (Classes file.now) result }
{
    together(&file[CLASSES_START..STARTING_START]) < 4
}

// Whether all members of a set are below `states`.
fn within(set: u64, states: usize) -> bool
    ensures { Exact (set < 2 ^ states) result }
{
    64 <= states || set >> states == 0
}

pub fn sets(file: &[u8]) -> bool
    requires { rows_start ≤ length file.now }
    ensures { Exact (Sets file.now) result }
{
    let states = wide(file[1]);
    let starting = load_eight(file, STARTING_START);
    starting != 0 && within(starting, states) && within(load_eight(file, FINAL_START), states)
}
