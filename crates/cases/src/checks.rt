// Rule files: G, G with each kind of fault once, cut short, and with each byte changed.
ghost use Rattle.std.specs.Prelude.{◌<◌, ◌≤◌};

use crate::lines::say;
use crate::pairs::part;
use crate::tables::{g, put};
use numbers::number_of;
use std::io;
use table_check::check;

pub(crate) fn all(rt: &impl Print) -> io::Result<()> {
    changed(rt, b"G", 0, b"")?;
    head_faults(rt)?;
    contents_faults(rt)?;
    body_faults(rt)?;
    row_faults(rt)?;
    order_faults(rt)?;
    marker_faults(rt)?;
    say(rt, b"beginnings of G that are taken", beginnings())?;
    say(rt, b"values at places of G that are taken", changes())
}

// The number that `check` gives back.
pub(crate) fn number(file: &[u8]) -> u64 {
    u64::from(number_of(&check(file)))
}

// G with other bytes from a place on.
fn changed(rt: &impl Print, name: &[u8], at: usize, bytes: &[u8]) -> io::Result<()> {
    let mut file = g();
    put(&mut file, at, bytes);
    say(rt, name, number(&file))
}

fn head_faults(rt: &impl Print) -> io::Result<()> {
    changed(rt, b"head: edition", 0, b"\x02")?;
    changed(rt, b"head: no states", 1, b"\x00")?;
    changed(rt, b"head: too many states", 1, b"\x41")?;
    changed(rt, b"head: too many markers", 2, b"\x41")?;
    changed(rt, b"head: no depth", 3, b"\x00")?;
    changed(rt, b"head: too deep", 3, b"\x21")?;
    changed(rt, b"head: waiting cap", 5, b"\x03")?;
    changed(rt, b"head: length", 6, b"\x61")
}

fn contents_faults(rt: &impl Print) -> io::Result<()> {
    changed(rt, b"contents: start of the classes", 8, b"\x1d")?;
    changed(rt, b"contents: length of the classes", 10, b"\x01")?;
    changed(rt, b"contents: start of the starting set", 12, b"\x1d")?;
    changed(rt, b"contents: length of the starting set", 14, b"\x09")?;
    changed(rt, b"contents: start of the final set", 16, b"\x25")?;
    changed(rt, b"contents: length of the final set", 18, b"\x07")?;
    changed(rt, b"contents: start of the rows", 20, b"\x2d")?;
    changed(rt, b"contents: length of the rows", 22, b"\x2f")?;
    changed(rt, b"contents: start of the words", 24, b"\x5d")?;
    changed(rt, b"contents: length of the words", 26, b"\x05")
}

fn body_faults(rt: &impl Print) -> io::Result<()> {
    changed(rt, b"classes: a fourth class", 228, b"\x04")?;
    changed(rt, b"sets: nothing starts", 284, b"\x00")?;
    changed(rt, b"sets: a start above the states", 284, b"\x11")?;
    changed(rt, b"sets: a final state above the states", 293, b"\x01")
}

fn row_faults(rt: &impl Print) -> io::Result<()> {
    changed(rt, b"rows: an unused symbol", 300, b"\x02")?;
    changed(rt, b"rows: from above the states", 301, b"\x04")?;
    changed(rt, b"rows: to above the states", 302, b"\x04")?;
    changed(rt, b"rows: an internal marker", 303, b"\x01")?;
    changed(rt, b"rows: a call without a marker", 319, b"\x00")?;
    changed(rt, b"rows: a marker above the count", 319, b"\x02")?;
    changed(rt, b"rows: a word that starts too late", 304, b"\x06")?;
    changed(rt, b"rows: a word that is too long", 306, b"\x07")?;
    changed(rt, b"rows: the last byte", 307, b"\x01")?;
    changed(rt, b"rows: falling", 301, b"\x03")
}

// Faults of order that take more than one byte, and an order that is right.
fn order_faults(rt: &impl Print) -> io::Result<()> {
    changed(rt, b"rows: one row twice", 309, b"\x01\x01")?;
    changed(rt, b"rows: rising words", 326, b"\x01")?;
    changed(
        rt,
        b"rows: falling words",
        320,
        b"\x04\x00\x02\x00\x0a\x00\x01\x01\x02",
    )
}

// With two markers: rows rise by marker before they rise by to, which the second keeps.
fn marker_faults(rt: &impl Print) -> io::Result<()> {
    let mut file = g();
    put(&mut file, 2, b"\x02");
    put(&mut file, 319, b"\x02");
    say(
        rt,
        b"rows: a falling marker before a rising to",
        number(&file),
    )?;
    put(&mut file, 318, b"\x02\x01");
    put(&mut file, 326, b"\x01\x02");
    say(
        rt,
        b"rows: a rising marker before a falling to",
        number(&file),
    )
}

// How many beginnings of G are taken: the whole alone.
fn beginnings() -> u64 {
    let file = g();
    (0..=file.len())
        .filter(|n| check(part(&file, *n)).is_ok())
        .count() as u64
}

// How many of the 256 values are taken at one place of G.
fn values(at: usize) -> u64
    requires { at < 354 }
    ensures { result ≤ 256 }
{
    let mut file = g();
    let mut sum = 0;
    for v in 0..=255u8 {
        file[at] = v;
        if check(&file).is_ok() {
            sum += 1;
        }
    }
    sum
}

// The same of all places together.
fn changes() -> u64 {
    let mut sum = 0;
    for at in 0..354 {
        sum += values(at);
    }
    sum
}
