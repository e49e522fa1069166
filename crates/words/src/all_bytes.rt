// All bytes of a slice at once. A loop with no way out early runs on many bytes at a time, and one over a known number
// of bytes is no loop at all: so `zeros` asks about blocks of known lengths.
ghost use Rattle.std.specs.Prelude.{◌≡◌, ◌*◌, ◌≤◌, ◌<◌, length};
ghost use Rattle.words.specs.Lists.{Exact};
ghost use Rattle.words.specs.Together.{together, AllZero, blank};

// All bytes taken together by or.
pub fn together(bytes: &[u8]) -> u8
    ensures { result ≡ together 0 bytes.now }
{
    bytes.iter().fold(0, |all, byte| all | *byte)
}

// Whether all bytes are 0: block by block, and then the rest.
pub fn zeros(bytes: &[u8]) -> bool
    ensures { Exact (AllZero bytes.now) result }
{
    let (blocks, rest) = bytes.as_chunks::<1024>();
    if !blank(blocks) {
        return false;
    }
    few_zeros(rest)
}

// The same of less than a block.
fn few_zeros(bytes: &[u8]) -> bool
    requires { length bytes.now < 1024 }
    ensures { Exact (AllZero bytes.now) result }
{
    let n = bytes.len();
    if 512 < n {
        return end_zeros(bytes, 512);
    }
    if 256 < n {
        return end_zeros(bytes, 256);
    }
    if 128 < n {
        return end_zeros(bytes, 128);
    }
    if 64 < n {
        return end_zeros(bytes, 64);
    }
    if 32 < n {
        return end_zeros(bytes, 32);
    }
    if 16 < n {
        return end_zeros(bytes, 16);
    }
    together(bytes) == 0
}

// The same, by the first and the last `part` bytes, which may overlap.
fn end_zeros(bytes: &[u8], part: usize) -> bool
    requires { (part ≤ length bytes.now) × (length bytes.now ≤ 2 * part) }
    ensures { Exact (AllZero bytes.now) result }
{
    let last = bytes.len() - part;
    together(&bytes[0..part]) | together(&bytes[last..]) == 0
}

// The same of all blocks, with a way out after each.
fn blank<const N: usize>(blocks: &[[u8; N]]) -> bool
    ensures { result ≡ blank blocks.now }
{
    for block in blocks {
        if together(block) != 0 {
            return false;
        }
    }
    true
}
