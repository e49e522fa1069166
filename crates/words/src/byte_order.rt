// Byte order of words, in place.
ghost use Rattle.std.specs.Prelude.{◌≡◌};
ghost use Rattle.words.specs.Order.{side};
ghost use Rattle.words.specs.Calls.{side_of};

use std::cmp::Ordering;

// By the first byte that differs; a beginning comes before what it begins.
pub fn compare(a: &[u8], b: &[u8]) -> Ordering
    ensures { side_of result ≡ side a.now b.now }
{
    a.cmp(b)
}
