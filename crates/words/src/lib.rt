// Byte strings: the longest common beginning, byte order, rising lists, with the laws that the crates above use.
// Each function comes with the crate that needs it.

#![tactic(auto)]

mod all_bytes;
mod beginning;
mod byte_order;
mod halves;
mod little_endian;
mod writing;

ghost use Rattle.std.specs.Prelude.{◌≡◌, ◌<◌};

pub use all_bytes::{together, zeros};
pub use beginning::common_length;
pub use byte_order::compare;
pub use halves::{first_not, sought};
pub use little_endian::{load_eight, load_two, store_two};
pub use writing::{clear, copy, insert, put_byte, put_bytes, send};

// A byte as a number, with the bound that sums and products of bytes are proved from.
pub fn wide(x: u8) -> usize
    ensures { (result ≡ x) × (result < 256) }
{
    usize::from(x)
}
