// Whether the words of one table nest for the classes of another. A call row's word may leave headers open for its
// partners, so that their words are read from where it ended.

#![tactic(auto)]

ghost use Rattle.std.specs.Prelude.{◌≡◌, ◌<◌, ◌≤◌, length};
ghost use Rattle.words.specs.Lists.{Exact};
ghost use Rattle.meaning.specs.Table.{unused};
ghost use Rattle.meaning.specs.Nesting.{after, and_then, level, is_zero, Nests};
ghost use Rattle.table.specs.File.{row_count, row_at, table_of};
ghost use Rattle.table.specs.Good.{first_edition, GoodFile};
ghost use Rattle.join_nesting.specs.Nesting.{Hops, level_of, Few, Opens, Known, AllKnown};
ghost use Rattle.join_nesting.specs.Nesting.{PairNests, PairsNest, RowNests, RowsNest};

use table::Class;

// How many headers are open after one symbol; none where a return closed nothing, or the symbol has class 0. A word has at
// most 255 bytes, and two are read in a row at most.
fn after_symbol(second: &[u8], symbol: u8, many: usize) -> Option<usize>
    requires { (GoodFile first_edition second.now) × (many < 510) }
    ensures { level_of result ≡ after ((table_of second.now).class symbol) many }
{
    match table::class_of(second, symbol) {
        Class::Unused => None,
        Class::Call => Some(many + 1),
        Class::Return => many.checked_sub(1),
        Class::Internal => Some(many),
    }
}

// After a word.
fn after_word(second: &[u8], word: &[u8], from: usize) -> Option<usize>
    requires { (GoodFile first_edition second.now) × (from ≤ 255) × (length word.now ≤ 255) }
    ensures { level_of result ≡ level (table_of second.now).class word.now from }
{
    let mut many = from;
    for symbol in word {
        many = after_symbol(second, *symbol, many)?;
    }
    Some(many)
}

// Whether a word closes all that is open, and all that it opens.
fn closes(second: &[u8], word: &[u8], from: Option<usize>) -> bool
    requires { (GoodFile first_edition second.now) × (Few from) × (length word.now ≤ 255) }
    ensures { result ≡ is_zero
        (and_then (level_of from) (level (table_of second.now).class word.now)) }
{
    from.and_then(|many| after_word(second, word, many)) == Some(0)
}

// Whether a symbol has another class than 0.
fn known(second: &[u8], symbol: u8) -> bool
    requires { GoodFile first_edition second.now }
    ensures { Exact ((table_of second.now).class symbol ≡ unused → ⊥) result }
{
    table::class_of(second, symbol) != Class::Unused
}

// The same of all bytes of a word.
fn all_known(second: &[u8], word: &[u8]) -> bool
    requires { GoodFile first_edition second.now }
    ensures { Exact (Known (table_of second.now).class word.now) result }
{
    word.iter().all(|symbol| known(second, *symbol))
}

// The same of all words of a table.
fn words_known(first: &[u8], second: &[u8]) -> bool
    requires { Hops first.now second.now }
    ensures { Exact (AllKnown (table_of second.now).class (table_of first.now)) result }
{
    for i in 0..table::row_count(first) {
        if !all_known(second, table::row_word(first, i)) {
            return false;
        }
    }
    true
}

// Whether row `j` is no partner of call row `i`, whose word ended at `from`, or closes what that word left open.
fn pair_nests(first: &[u8], second: &[u8], i: usize, from: Option<usize>, j: usize) -> bool
    requires { (Opens first.now second.now i from) × (j < row_count first.now) }
    ensures { Exact (PairNests (table_of second.now).class (table_of first.now)
        (row_at first.now i) (row_at first.now j)) result }
{
    if table::row_marker(first, i) != table::row_marker(first, j) {
        return true;
    }
    match table::row_class(first, j) {
        Class::Unused | Class::Call | Class::Internal => true,
        Class::Return => closes(second, table::row_word(first, j), from),
    }
}

// The same of all rows.
fn pairs_nest(first: &[u8], second: &[u8], i: usize, from: Option<usize>) -> bool
    requires { Opens first.now second.now i from }
    ensures { Exact (PairsNest (table_of second.now).class (table_of first.now)
        (row_at first.now i)) result }
{
    for j in 0..table::row_count(first) {
        if !pair_nests(first, second, i, from, j) {
            return false;
        }
    }
    true
}

// Whether a row's word nests: an internal row's alone, a call row's with each partner's.
fn row_nests(first: &[u8], second: &[u8], i: usize) -> bool
    requires { (Hops first.now second.now) × (i < row_count first.now) }
    ensures { Exact (RowNests (table_of second.now).class (table_of first.now)
        (row_at first.now i)) result }
{
    let word = table::row_word(first, i);
    match table::row_class(first, i) {
        Class::Unused | Class::Return => true,
        Class::Call => pairs_nest(first, second, i, after_word(second, word, 0)),
        Class::Internal => closes(second, word, Some(0)),
    }
}

// The same of all rows of a table.
fn rows_nest(first: &[u8], second: &[u8]) -> bool
    requires { Hops first.now second.now }
    ensures { Exact (RowsNest (table_of second.now).class (table_of first.now)) result }
{
    for i in 0..table::row_count(first) {
        if !row_nests(first, second, i) {
            return false;
        }
    }
    true
}

// Whether the first table nests for the second's classes. Class 0 is looked for over all rows first.
pub fn nests(first: &[u8], second: &[u8]) -> bool
    requires { Hops first.now second.now }
    ensures { Exact (Nests (table_of second.now).class (table_of first.now)) result }
{
    words_known(first, second) && rows_nest(first, second)
}
