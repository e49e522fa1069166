// Joins at the edge of each size, and one over it.
use crate::joins::{ROOM, shown, tried};
use crate::pairs::{inner, laid, many, numbered, outer};
use crate::tables::put;
use std::io;

pub(crate) fn all(rt: &impl Print) -> io::Result<()> {
    first_words(rt)?;
    states(rt)?;
    markers(rt)?;
    rows(rt)?;
    largest(rt)?;
    joined_words(rt)?;
    words_together(rt)
}

fn first_words(rt: &impl Print) -> io::Result<()> {
    let words = [97u8; 17];
    let second = inner(b"\x01\x00\x04\x04", b"a\x00\x00\x00\x01", b"b");
    let edge = outer(b"\x01\x00\x04\x04", b"x\x00\x00\x00\x10", &words[..16]);
    tried(rt, b"a word of 16 bytes", &edge, &second, ROOM)?;
    let over = outer(b"\x01\x00\x04\x04", b"x\x00\x00\x00\x11", &words);
    tried(rt, b"a word of 17 bytes", &over, &second, ROOM)
}

// 8 by 8, of which the last is final; and 13 by 5.
fn states(rt: &impl Print) -> io::Result<()> {
    let mut first = outer(b"\x08\x00\x04\x04", b"x\x00\x07\x00\x01", b"a");
    let mut second = inner(b"\x08\x00\x04\x04", b"a\x00\x07\x00\x01", b"b");
    put(&mut first, 292, b"\x80");
    put(&mut second, 292, b"\x80");
    shown(rt, b"64 states", &first, &second)?;
    first = outer(b"\x0d\x00\x04\x04", b"x\x00\x0c\x00\x01", b"a");
    second = inner(b"\x05\x00\x04\x04", b"a\x00\x04\x00\x01", b"b");
    tried(rt, b"65 states", &first, &second, ROOM)
}

// 32 call rows that write `c`, which pushes marker 1 or 2; and one with an empty word.
fn markers(rt: &impl Print) -> io::Result<()> {
    let mut rows = numbered(32, true);
    put(&mut rows, 160, b"\x21\x00\x00\x21\x00");
    let words = [99u8; 32];
    let second = laid(
        b"\x01\x02\x04\x04",
        b"c\x01",
        b"c\x00\x00\x01\x00c\x00\x00\x02\x00",
        b"",
    );
    let edge = many(1, &rows, 32, &words);
    tried(rt, b"64 markers", &edge, &second, ROOM)?;
    let over = many(1, &rows, 33, &words);
    tried(rt, b"65 markers", &over, &second, ROOM)
}

// 64 rows that write `a`, which gives one of four words; and one with an empty word.
fn rows(rt: &impl Print) -> io::Result<()> {
    let mut rows = numbered(64, false);
    put(&mut rows, 320, b"\x41\x00\x00\x00\x00");
    let words = [97u8; 64];
    let second = inner(
        b"\x01\x00\x04\x04",
        b"a\x00\x00\x00\x01a\x00\x00\x00\x01a\x00\x00\x00\x01a\x00\x00\x00\x01",
        b"abcd",
    );
    let edge = many(3, &rows, 64, &words);
    tried(rt, b"256 rows", &edge, &second, ROOM)?;
    let over = many(3, &rows, 65, &words);
    tried(rt, b"257 rows", &over, &second, ROOM)
}

// 256 rows of 16 bytes each: the largest file, and no room for its last byte.
fn largest(rt: &impl Print) -> io::Result<()> {
    let rows = numbered(64, false);
    let words = [97u8; 64];
    let first = many(3, &rows, 64, &words);
    let second = inner(
        b"\x01\x00\x04\x04",
        b"a\x00\x00\x00\x10a\x00\x00\x00\x10a\x00\x00\x00\x10a\x00\x00\x00\x10",
        b"aaaaaaaaaaaaaaaabbbbbbbbbbbbbbbbccccccccccccccccdddddddddddddddd",
    );
    tried(rt, b"the largest file", &first, &second, 6444)?;
    tried(rt, b"room for one byte less", &first, &second, 6443)
}

// A second table in which `a` writes 255 bytes, and `b` one.
fn joined_words(rt: &impl Print) -> io::Result<()> {
    let words = [122u8; 256];
    let second = inner(
        b"\x01\x00\x04\x04",
        b"a\x00\x00\x00\xffb\x00\x00\x00\x01",
        &words,
    );
    let edge = outer(b"\x01\x00\x04\x04", b"x\x00\x00\x00\x01", b"a");
    tried(rt, b"a joined word of 255 bytes", &edge, &second, ROOM)?;
    let over = outer(b"\x01\x00\x04\x04", b"x\x00\x00\x00\x02", b"ab");
    tried(rt, b"a joined word of 256 bytes", &over, &second, ROOM)
}

// Sixteen words of 255 bytes and one of 16; and one of one byte.
fn words_together(rt: &impl Print) -> io::Result<()> {
    let long = [122u8; 256];
    let second = inner(
        b"\x01\x00\x04\x04",
        b"a\x00\x00\x00\xffb\x00\x00\x00\x01",
        &long,
    );
    let mut rows = numbered(16, false);
    put(&mut rows, 80, b"\x11\x00\x00\x00\x10\x12\x00\x00\x00\x01");
    let words = b"aaaaaaaaaaaaaaaabbbbbbbbbbbbbbbbb";
    let edge = many(3, &rows, 17, words);
    tried(rt, b"4096 bytes of words", &edge, &second, ROOM)?;
    let over = many(3, &rows, 18, words);
    tried(rt, b"4097 bytes of words", &over, &second, ROOM)
}
