// A shelf: words, each once and in rising byte order, in a room that the caller lends. A word comes in two parts, so
// that nobody has to join them first.
#![tactic(auto)]

ghost use Rattle.std.specs.Prelude.{◌≡◌, ◌∷◌, [], ◌++◌, ◌+◌, ◌*◌, ◌≤◌, ◌<◌, length, Some};
ghost use Rattle.words.specs.Order.{side};
ghost use Rattle.words.specs.Calls.{side_of};
ghost use Rattle.join_shelf.specs.Shelved.{start_of, word_at, Stands, Standing, Bare, SomeShelved, Gathers};
ghost use Rattle.join_shelf.specs.Shelved.{WordPlace, Sought};
ghost use Rattle.join_shelf.specs.Shelved.{Stored};
ghost use Rattle.join_shelf.specs.Shelved.{SameOrder};

use std::cmp::Ordering;
use words::{compare, copy, insert, load_two, sought, wide};

// The room: the bytes of all words, as they came; from `STARTS` on where the word of each slot starts, in two bytes;
// from `ORDER` on which slot is read first, second, and so on.
pub const SHELF: usize = 5890;

const ROOM: usize = 5120;

const STARTS: usize = 5120;

const ORDER: usize = 5634;

// What stands on a shelf: so many words with so many bytes together. Where there was no room for one, there is none.
#[derive(Clone, Copy, PartialEq, Eq)]
pub struct Stock {
    pub count: usize,
    pub used: usize,
}

// Nothing yet, whatever the lent room holds.
pub fn start() -> Stock
    ensures { Bare (Some result) }
{
    Stock { count: 0, used: 0 }
}

// Puts a word at its place, unless it is there.
pub fn put(room: &mut [u8; SHELF], shelf: Option<Stock>, head: &[u8], tail: &[u8]) -> Option<Stock>
    requires { SomeShelved room.old shelf }
    ensures { Gathers ((head.now ++ tail.now) ∷ [])
        room.old shelf
        result room.new }
{
    put_in(room, shelf?, head, tail)
}

// The word at a place, as a part of the lent room.
pub fn word<'a>(room: &'a [u8; SHELF], i: usize) -> &'a [u8]
    requires { Stands room.now i }
    ensures { result.now ≡ word_at room.now i }
{
    let slot = wide(room[ORDER + i]);
    &room[start_of(room, slot)..start_of(room, slot + 1)]
}

// Where the word of a slot starts.
fn start_of(room: &[u8], k: usize) -> usize
    requires { 5121 + 2 * k < length room.now }
    ensures { result ≡ start_of room.now k }
{
    load_two(room, STARTS + 2 * k)
}

// Where a word stands, or where it would.
fn seek(room: &[u8; SHELF], count: usize, head: &[u8], tail: &[u8]) -> Result<usize, usize>
    requires { Standing room.now count }
    ensures { Sought room.now count (head.now ++ tail.now) result }
{
    sought(count, |i| against(head, tail, word(room, i)))
}

// How many words come before a word.
pub fn place(room: &[u8; SHELF], count: usize, head: &[u8], tail: &[u8]) -> usize
    requires { Standing room.now count }
    ensures { WordPlace room.now count
        (head.now ++ tail.now) result }
{
    match seek(room, count, head, tail) {
        Ok(at) => at,
        Err(at) => at,
    }
}

// Where a word in two parts stands to another.
fn against(head: &[u8], tail: &[u8], word: &[u8]) -> Ordering
    ensures { side_of result ≡ side (head.now ++ tail.now) word.now }
{
    let n = head.len();
    if word.len() < n {
        return compare(head, word);
    }
    match compare(head, &word[..n]) {
        Ordering::Less => Ordering::Less,
        Ordering::Equal => compare(tail, &word[n..]),
        Ordering::Greater => Ordering::Greater,
    }
}

// The same as `put`, on a shelf that is not full.
fn put_in(room: &mut [u8; SHELF], stock: Stock, head: &[u8], tail: &[u8]) -> Option<Stock>
    requires { SomeShelved room.old (Some stock) }
    ensures { Gathers ((head.now ++ tail.now) ∷ [])
        room.old (Some stock)
        result room.new }
{
    let Stock { count, used } = stock;
    let Err(at) = seek(room, count, head, tail) else {
        return Some(stock);
    };
    if count == 256 {
        return None;
    }
    let left = ROOM - used;
    if left < head.len() || left - head.len() < tail.len() {
        return None;
    }
    let end = store(room, count, used, head, tail);
    insert(room, ORDER + count, ORDER + at, count as u8);
    Some(Stock {
        count: count + 1,
        used: end,
    })
}

// Lays the bytes of a word behind those in use, in the slot after those in use; gives where they end.
fn store(room: &mut [u8; SHELF], count: usize, used: usize, head: &[u8], tail: &[u8]) -> usize
    requires { (count < 256) × (used + length head.now + length tail.now ≤ 5120) }
    ensures stored { Stored room.old count used
        (head.now ++ tail.now) result room.new }
    ensures same_order { SameOrder room.old room.new }
{
    let middle = used + head.len();
    let end = middle + tail.len();
    let [start_low, start_high] = (used as u16).to_le_bytes();
    let [end_low, end_high] = (end as u16).to_le_bytes();
    copy(room, used, head);
    copy(room, middle, tail);
    copy(
        room,
        STARTS + 2 * count,
        &[start_low, start_high, end_low, end_high],
    );
    end
}
