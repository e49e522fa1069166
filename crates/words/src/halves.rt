// Searches by halves over numbers: where a test turns, and where something stands.
ghost use Rattle.std.specs.Prelude.{◌≡◌, ℕ, true, false, ◌+◌, ◌<◌, ◌≤◌, IfOk, IfErr};
ghost use Rattle.std.specs.declared.cmp.Ordering.TheVariants.{Less, Equal, Greater};

use std::cmp::Ordering;

// The first number below `n` of which the test does not hold; `n` where there is none. Of a test that is not so, some
// number where it turns.
pub fn first_not<F: Fn(usize) -> bool>(n: usize, test: F) -> usize
    requires { (i : ℕ) → i < n → F.pre test i }
    ensures within { result ≤ n }
    ensures before { (i : ℕ) → i + 1 ≡ result → F.post test i true }
    ensures onward { result < n → F.post test result false }
{
    let mut low = 0;
    let mut high = n;
    while low < high {
        let middle = low + (high - low) / 2;
        if test(middle) {
            low = middle + 1;
        } else {
            high = middle;
        }
    }
    low
}

// Where something is among the numbers below `n`, by how it stands to each: `Ok` at it, with a way out as soon as it is met;
// else `Err` where it would stand.
pub fn sought<F: Fn(usize) -> Ordering>(n: usize, test: F) -> Result<usize, usize>
    requires { (i : ℕ) → i < n → F.pre test i }
    ensures found { IfOk result (λ at. (at < n) × F.post test at Equal) }
    ensures within { IfErr result (λ at. at ≤ n) }
    ensures before { IfErr result (λ at. (i : ℕ) → i + 1 ≡ at → F.post test i Greater) }
    ensures onward { IfErr result (λ at. at < n → F.post test at Less) }
{
    let mut low = 0;
    let mut high = n;
    while low < high {
        let middle = low + (high - low) / 2;
        match test(middle) {
            Ordering::Less => high = middle,
            Ordering::Equal => return Ok(middle),
            Ordering::Greater => low = middle + 1,
        }
    }
    Err(low)
}
