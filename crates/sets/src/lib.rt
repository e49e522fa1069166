// Sets of states, each a number whose bit i says whether state i is a member. A caller visits the members in rising
// order by `lowest` and `without_lowest`, until the set is 0.

#![tactic(auto)]

ghost use Rattle.std.specs.Prelude.{◌≡◌, ◌∷◌, ◌<◌, ◌≤◌, ◌-◌, length, drop, get_or};
ghost use Rattle.sets.specs.Sets.{is_in, members};

// Any number may be asked for: no set has a member from 64 on.
pub fn has(set: u64, i: usize) -> bool
    ensures { result ≡ is_in set i }
{
    i < 64 && (set >> i) & 1 == 1
}

pub fn size(set: u64) -> u32
    ensures { result ≡ length (members set) }
{
    u64::count_ones(set)
}

// The first member; 64 where there is none.
pub fn lowest(set: u64) -> u32
    ensures value { result ≡ get_or (members set) 0 64 }
    ensures upper_bound { 0 < set → (result < 64) × (members set ≡ result ∷ drop 1 (members set)) }
{
    u64::trailing_zeros(set)
}

// The other members; the number falls, so that a visit of all ends.
pub fn without_lowest(set: u64) -> u64
    ensures { (members result ≡ drop 1 (members set)) × (result ≤ set - 1) }
{
    if set == 0 {
        return 0;
    }
    set & (set - 1)
}
