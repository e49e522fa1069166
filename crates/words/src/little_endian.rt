// Numbers of several bytes, the lowest first.
ghost use Rattle.std.specs.Prelude.{◌≡◌, ◌+◌, ◌≤◌, ◌<◌, length};
ghost use Rattle.words.specs.LittleEndian.{two, eight, with_two};

pub fn load_two(bytes: &[u8], at: usize) -> usize
    requires { at + 2 ≤ length bytes.now }
    ensures { (result ≡ two bytes.now at) × (result < 65536) }
{
    usize::from(u16::from_le_bytes([bytes[at], bytes[at + 1]]))
}

pub fn load_eight(bytes: &[u8], at: usize) -> u64
    requires { at + 8 ≤ length bytes.now }
    ensures { result ≡ eight bytes.now at }
{
    u64::from_le_bytes([
        bytes[at],
        bytes[at + 1],
        bytes[at + 2],
        bytes[at + 3],
        bytes[at + 4],
        bytes[at + 5],
        bytes[at + 6],
        bytes[at + 7],
    ])
}

// What `load_two` reads.
pub fn store_two(bytes: &mut [u8], at: usize, n: usize)
    requires { (at + 2 ≤ length bytes.old) × (n < 65536) }
    ensures { bytes.new ≡ with_two bytes.old at n }
{
    let [low, high] = (n as u16).to_le_bytes();
    bytes[at] = low;
    bytes[at + 1] = high;
}
