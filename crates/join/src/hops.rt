// Two tables become one: the tests in their order, each after the work that it needs. The output is written only once
// all have passed.
ghost use Rattle.std.specs.Prelude.{◌≡◌};
ghost use Rattle.words.specs.Lists.{Exact};
ghost use Rattle.meaning.specs.Sentences.{LongWord};
ghost use Rattle.table.specs.File.{table_of};
ghost use Rattle.table.specs.Good.{first_edition as edition, GoodFile};
ghost use Rattle.join_shelf.specs.Shelved.{Standing};
ghost use Rattle.join.specs.Hopping.{LongKey, Rowed};
ghost use Rattle.join.specs.Calls.{refusal_of, table_of_refusal, JoinedBy};

use crate::gathering::{Wanted, gather};
use crate::reading::TAPE;
use join_file::Sizes;
use join_nesting::nests;
use join_shelf::{SHELF, Stock};
use numbers::Refusal;

// Why two tables are not joined: one of them is bad, the first looked at first, or another refusal.
#[derive(Clone, Copy, PartialEq, Eq)]
pub enum Unjoined {
    BadFirst,
    BadSecond,
    NotNested,
    TooLarge,
    NoRoom,
}

impl From<Unjoined> for Refusal {
    ghost from_gives = { λ unjoined refusal. refusal ≡ refusal_of unjoined };

    fn from(unjoined: Unjoined) -> Refusal {
        match unjoined {
            Unjoined::BadFirst | Unjoined::BadSecond => Refusal::BadTable,
            Unjoined::NotNested => Refusal::NotNested,
            Unjoined::TooLarge => Refusal::TooLarge,
            Unjoined::NoRoom => Refusal::NoRoom,
        }
    }
}

impl Unjoined {
    // Which table is bad, 1 or 2; 0 where none is.
    pub fn table(self) -> u32
        ensures { result ≡ table_of_refusal self }
    {
        match self {
            Unjoined::BadFirst => 1,
            Unjoined::BadSecond => 2,
            Unjoined::NotNested | Unjoined::TooLarge | Unjoined::NoRoom => 0,
        }
    }
}

// Whether a word of a table has over 16 bytes.
fn long_words(file: &[u8]) -> bool
    requires { GoodFile edition file.now }
    ensures { Exact (LongWord 16 (table_of file.now)) result }
{
    for i in 0..table::row_count(file) {
        if 16 < table::row_word(file, i).len() {
            return true;
        }
    }
    false
}

// Whether a joined row has a word over 255 bytes: its key has four more.
fn long_rows(rows: &[u8; SHELF], count: usize) -> bool
    requires { Standing rows.now count }
    ensures { Exact (LongKey rows.now count) result }
{
    for i in 0..count {
        if 259 < join_shelf::word(rows, i).len() {
            return true;
        }
    }
    false
}

// `join_in` with a room of the call's own.
pub fn join(first: &[u8], second: &[u8], out: &mut [u8]) -> Result<usize, Unjoined>
    ensures { JoinedBy first.now second.now out.old result out.new }
{
    let mut marks = [0u8; SHELF];
    let mut rows = [0u8; SHELF];
    let mut tape = [0u8; TAPE];
    join_in(first, second, out, &mut marks, &mut rows, &mut tape)
}

// Joins two tables: writes the file of one that allows what the second allows on some output of the first. The lent
// room may hold anything: a shelf for the joined markers, one for the joined rows, and the tape of a reading.
pub fn join_in(
    first: &[u8],
    second: &[u8],
    out: &mut [u8],
    marks: &mut [u8; SHELF],
    rows: &mut [u8; SHELF],
    tape: &mut [u8; TAPE],
) -> Result<usize, Unjoined>
    ensures { JoinedBy first.now second.now out.old result out.new }
{
    if table_check::check(first).is_err() {
        return Err(Unjoined::BadFirst);
    }
    if table_check::check(second).is_err() {
        return Err(Unjoined::BadSecond);
    }
    if !nests(first, second) {
        return Err(Unjoined::NotNested);
    }
    if long_words(first) || 64 < table::states(first) * table::states(second) {
        return Err(Unjoined::TooLarge);
    }
    let Some(marked) = gather(first, second, Wanted::Marks, rows, marks, tape) else {
        return Err(Unjoined::TooLarge);
    };
    let markers = marked.count;
    if 64 < markers {
        return Err(Unjoined::TooLarge);
    }
    let wanted = Wanted::Rows { count: markers };
    let Some(rowed) = gather(first, second, wanted, marks, rows, tape) else {
        return Err(Unjoined::TooLarge);
    };
    lay(first, second, out, markers, rows, rowed)
}

// Once all rows stand: those that are too large, and the room for the file.
fn lay(
    first: &[u8],
    second: &[u8],
    out: &mut [u8],
    markers: usize,
    rows: &[u8; SHELF],
    rowed: Stock,
) -> Result<usize, Unjoined>
    requires { Rowed first.now second.now markers rows.now rowed.count rowed.used }
    ensures { JoinedBy first.now second.now out.old result out.new }
{
    let count = rowed.count;
    if long_rows(rows, count) {
        return Err(Unjoined::TooLarge);
    }
    let words = rowed.used - 4 * count;
    if 4096 < words {
        return Err(Unjoined::TooLarge);
    }
    if out.len() < 300 + 8 * count + words {
        return Err(Unjoined::NoRoom);
    }
    let sizes = Sizes {
        markers,
        rows: count,
        words,
    };
    Ok(join_file::write(first, second, out, sizes, rows))
}
