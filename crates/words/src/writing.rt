// Writing a part of a slice, and nothing else of it. Bytes are moved by loops: a slice's `copy_from_slice` and
// `rotate_right` ask whoever links the library for `memmove`.
ghost use Rattle.std.specs.Prelude.{◌≡◌, [], ◌∷◌, ◌++◌, ◌+◌, ◌<◌, ◌≤◌, length, drop, replicate};
ghost use Rattle.std.proofs.Math.Seq.{paste};
ghost use Rattle.words.specs.Calls.{Room, Appended, Inserted};

// All of `part`, from a place on.
pub fn copy(to: &mut [u8], at: usize, part: &[u8])
    requires { at + length part.now ≤ length to.old }
    ensures { to.new ≡ paste to.old at part.now (length part.now) }
{
    for i in 0..part.len() {
        to[at + i] = part[i];
    }
}

// All of `part`, from the start: what a call sends.
pub fn send(out: &mut [u8], part: &[u8])
    requires { length part.now ≤ length out.old }
    ensures { out.new ≡ part.now ++ drop (length part.now) out.old }
{
    copy(out, 0, part);
}

// As many zeros, from a place on.
pub fn clear(to: &mut [u8], at: usize, many: usize)
    requires { at + many ≤ length to.old }
    ensures { to.new ≡ paste to.old at (replicate many 0) many }
{
    to[at..at + many].fill(0);
}

// A byte, from a place on. Answers the place after it.
pub fn put_byte(text: &mut [u8], at: usize, byte: u8) -> usize
    requires { Room text.old at (byte ∷ []) }
    ensures { Appended text.old at (byte ∷ []) result text.new }
{
    text[at] = byte;
    at + 1
}

// Bytes as they are. Answers the place after them.
pub fn put_bytes(text: &mut [u8], at: usize, bytes: &[u8]) -> usize
    requires { Room text.old at bytes.now }
    ensures { Appended text.old at bytes.now result text.new }
{
    copy(text, at, bytes);
    at + bytes.len()
}

// A byte comes at a place, and those from there on, of the first `count`, move up by one.
pub fn insert(to: &mut [u8], count: usize, at: usize, byte: u8)
    requires { (at ≤ count) × (count < length to.old) }
    ensures { Inserted to.old count at byte to.new }
{
    to.copy_within(at..count, at + 1);
    to[at] = byte;
}
