// Numbers, bytes in hex and whole lines. Each asks that its text has room for what it puts.
ghost use Rattle.std.specs.Prelude.{◌≡◌, [], ◌∷◌, ◌<◌};
ghost use Rattle.io.specs.Digits.{hex_digit_ascii as Digits·glyph};
ghost use Rattle.words.specs.Calls.{Room, Appended};
ghost use Rattle.rewrite_lines.specs.Text.{decimal, hex, hex_or_dash, field, last_field, line, ending, no_table};

use words::{put_byte, put_bytes};

fn put_decimal(text: &mut [u8], at: usize, n: u64) -> usize
    requires { Room text.old at (decimal n) }
    ensures { Appended text.old at (decimal n) result text.new }
{
    let mut digits = [0u8; 20];
    let many = io::decimal(n, &mut digits);
    put_bytes(text, at, &digits[..many])
}

// A digit of a byte in hex.
fn glyph(d: u8) -> u8
    requires { d < 16 }
    ensures { result ≡ Digits·glyph d }
{
    if d < 10 { 48 + d } else { 87 + d }
}

// A byte's two digits.
fn put_pair(text: &mut [u8], at: usize, byte: u8) -> usize
    requires { Room text.old at (hex (byte ∷ [])) }
    ensures { Appended text.old at (hex (byte ∷ [])) result text.new }
{
    let next = put_byte(text, at, glyph(byte / 16));
    put_byte(text, next, glyph(byte % 16))
}

// Two digits for each byte.
fn put_pairs(text: &mut [u8], at: usize, bytes: &[u8]) -> usize
    requires { Room text.old at (hex bytes.now) }
    ensures { Appended text.old at (hex bytes.now) result text.new }
{
    let mut end = at;
    for byte in bytes {
        end = put_pair(text, end, *byte);
    }
    end
}

// Bytes in hex, or a dash where there are none.
fn put_hex(text: &mut [u8], at: usize, bytes: &[u8]) -> usize
    requires { Room text.old at (hex_or_dash bytes.now) }
    ensures { Appended text.old at (hex_or_dash bytes.now) result text.new }
{
    if bytes.is_empty() {
        return put_byte(text, at, b'-');
    }
    put_pairs(text, at, bytes)
}

// A number and a space.
fn put_field(text: &mut [u8], at: usize, n: u64) -> usize
    requires { Room text.old at (field n) }
    ensures { Appended text.old at (field n) result text.new }
{
    let next = put_decimal(text, at, n);
    put_byte(text, next, b' ')
}

// Bytes in hex or a dash, and the line's end.
fn put_last(text: &mut [u8], at: usize, bytes: &[u8]) -> usize
    requires { Room text.old at (last_field bytes.now) }
    ensures { Appended text.old at (last_field bytes.now) result text.new }
{
    let next = put_hex(text, at, bytes);
    put_byte(text, next, b'\n')
}

// The line of a symbol.
pub fn put_line(
    text: &mut [u8],
    at: usize,
    place: u64,
    symbol: u8,
    number: u32,
    depth: usize,
    bytes: &[u8],
) -> usize
    requires { Room text.old at (line place symbol number depth bytes.now) }
    ensures { Appended text.old at (line place symbol number depth bytes.now) result text.new }
{
    let second = put_field(text, at, place);
    let third = put_field(text, second, u64::from(symbol));
    let fourth = put_field(text, third, u64::from(number));
    let fifth = put_field(text, fourth, depth as u64);
    put_last(text, fifth, bytes)
}

// The line of finish.
pub fn put_ending(text: &mut [u8], at: usize, number: u32, bytes: &[u8]) -> usize
    requires { Room text.old at (ending number bytes.now) }
    ensures { Appended text.old at (ending number bytes.now) result text.new }
{
    let second = put_bytes(text, at, b"end ");
    let third = put_field(text, second, u64::from(number));
    put_last(text, third, bytes)
}

// The only line where there is no table.
pub fn put_no_table(text: &mut [u8], at: usize) -> usize
    requires { Room text.old at no_table }
    ensures { Appended text.old at no_table result text.new }
{
    put_bytes(text, at, b"table 1\n")
}
