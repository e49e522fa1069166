// Tables to be joined: rule files laid from their parts, in a room that holds the largest. A file says in its head how
// long it is.
ghost use Rattle.std.specs.Prelude.{◌≤◌, length};

use crate::tables::put;
use words::load_two;

pub const LARGEST: usize = 6444;

// A table from its parts: states, markers, depth cap and waiting cap; a symbol and its class in turn; symbol, from, to,
// marker and the length of the word of each row; and the words in row order. State 0 starts and is final.
pub(crate) fn laid(head: &[u8], classes: &[u8], rows: &[u8], words: &[u8]) -> [u8; LARGEST] {
    let mut file = [0u8; LARGEST];
    put(&mut file, 0, b"\x01");
    put(&mut file, 1, head);
    put_classes(&mut file, classes);
    put(&mut file, 284, b"\x01\x00\x00\x00\x00\x00\x00\x00\x01");
    // No more rows than a file may have.
    let rows = part(rows.as_chunks::<5>().0, 256);
    let used = put_rows(&mut file, rows);
    put_contents(&mut file, 8 * rows.len(), used);
    put(&mut file, 300 + 8 * rows.len(), words);
    file
}

fn put_classes(file: &mut [u8], classes: &[u8]) {
    for [symbol, class] in classes.as_chunks::<2>().0 {
        put(file, 28 + usize::from(*symbol), &[*class]);
    }
}

// Each word starts where the one before ends; where the last ends is answered.
fn put_rows(file: &mut [u8], rows: &[[u8; 5]]) -> usize
    requires { length rows.now ≤ 256 }
    ensures { result ≤ 65280 }
{
    let mut start = 0;
    for (i, row) in rows.iter().enumerate() {
        let at = 300 + 8 * i;
        put(file, at, &row[..4]);
        put_two(file, at + 4, start);
        put(file, at + 6, &row[4..]);
        start += usize::from(row[4]);
    }
    start
}

// The length of the file, and the five entries, by how long the rows and the words are.
fn put_contents(file: &mut [u8], rows: usize, words: usize)
    requires { (rows ≤ 2048) × (words ≤ 65280) }
{
    put_two(file, 6, 300 + rows + words);
    put(file, 8, b"\x1c\x00\x00\x01\x1c\x01\x08\x00\x24\x01");
    put(file, 18, b"\x08\x00\x2c\x01");
    put_two(file, 22, rows);
    put_two(file, 24, 300 + rows);
    put_two(file, 26, words);
}

fn put_two(file: &mut [u8], at: usize, n: usize) {
    put(file, at, &n.to_le_bytes()[..2]);
}

// So much of a slice from its start, or all of one that is shorter.
pub(crate) fn part<T>(items: &[T], n: usize) -> &[T]
    ensures { length result.now ≤ n }
{
    items.get(..n).unwrap_or(items)
}

// The file in its room.
pub(crate) fn whole(file: &[u8; LARGEST]) -> &[u8] {
    part(file, load_two(file, 6))
}

// A first table: `(` and `<` call, `)` and `>` return, `x` is internal.
pub(crate) fn outer(head: &[u8], rows: &[u8], words: &[u8]) -> [u8; LARGEST] {
    laid(head, b"(\x01)\x02<\x01>\x02x\x03", rows, words)
}

// A second table: `[` and `{` call, `]` and `}` return, `a` and `b` are internal.
pub(crate) fn inner(head: &[u8], rows: &[u8], words: &[u8]) -> [u8; LARGEST] {
    laid(head, b"[\x01]\x02{\x01}\x02a\x03b\x03", rows, words)
}

// A first table of many symbols: 1 to 65 have one class, and there are the first n of these rows.
pub(crate) fn many(class: u8, rows: &[u8; 325], n: usize, words: &[u8]) -> [u8; LARGEST]
    requires { n ≤ 65 }
{
    let mut file = laid(b"\x01\x21\x04\x04", b"", &rows[..5 * n], words);
    put(&mut file, 29, &[class; 65]);
    file
}

// The parts of n rows for it, symbol after symbol, with a word of one byte; those of calls have marker after marker.
pub(crate) fn numbered(n: usize, calls: bool) -> [u8; 325]
    requires { n ≤ 64 }
{
    let mut rows = [0u8; 325];
    for i in 0..n {
        let symbol = (i + 1) as u8;
        let marker = if calls { symbol } else { 0 };
        put(&mut rows, 5 * i, &[symbol, 0, 0, marker, 1]);
    }
    rows
}

// The first table of the worked join, with these rows: nothing but `(` and `)` has a class.
pub(crate) fn first_hop(rows: &[u8], words: &[u8]) -> [u8; LARGEST] {
    laid(b"\x01\x01\x04\x04", b"(\x01)\x02", rows, words)
}

// The second: `[` marker 1 `a`, `{` marker 2 `b`, `}` marker 2 `c`, `]` marker 1 `d`.
pub(crate) fn second_hop() -> [u8; LARGEST] {
    inner(
        b"\x01\x02\x05\x03",
        b"[\x00\x00\x01\x01]\x00\x00\x01\x01{\x00\x00\x02\x01}\x00\x00\x02\x01",
        b"adbc",
    )
}
