// What words begin with in common, in place.
ghost use Rattle.std.specs.Prelude.{◌≡◌, length};
ghost use Rattle.words.specs.Words.{shared};

// How many bytes two words begin with in common.
pub fn common_length(a: &[u8], b: &[u8]) -> usize
    ensures { result ≡ length (shared a.now b.now) }
{
    let n = a.len().min(b.len());
    for i in 0..n {
        if a[i] != b[i] {
            return i;
        }
    }
    n
}
