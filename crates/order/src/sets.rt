ghost use Rattle.std.specs.Prelude.{◌≡◌, ℕ, ◌<◌, true, false, ◌↔◌, MatchOption};
ghost use Rattle.std.specs.Iterator.{at_most};
ghost use Rattle.automata.specs.Sets.{has};
ghost use Rattle.order.specs.Members.{IsHighest, IsLowest, IsWithout, TakesLowest};

// Stays: `automata::sets` has these for 32 bits; a trait over both widths would be longer than the two bodies, and a
// function over `Into<u64>` would not do, since `without` hands the width back.
/// Whether `k` is in the set. No number from 64 on is.
pub(crate) fn contains(set: u64, k: u8) -> bool
    ensures { result ≡ has set k }
{
    k < 64 && (set >> k) % 2 == 1
}

/// Whether the sets have no element in common.
pub(crate) fn are_disjoint(a: u64, b: u64) -> bool
    ensures { (result ≡ true) ↔ ((u : ℕ) → has b u ≡ true → has a u ≡ false) }
{
    a & b == 0
}

/// The least element, if there is one.
pub(crate) fn lowest(set: u64) -> Option<u8>
    ensures { MatchOption result (set ≡ 0) (IsLowest set) }
{
    if set == 0 {
        None
    } else {
        Some(set.trailing_zeros() as u8)
    }
}

/// The greatest element, if there is one.
pub(crate) fn highest(set: u64) -> Option<u8>
    ensures { MatchOption result (set ≡ 0) (IsHighest set) }
{
    set.checked_ilog2().map(|k| k as u8)
}

/// The set without `k`.
pub(crate) fn without(set: u64, k: u8) -> u64
    ensures others { IsWithout set k result }
    ensures less { has set k ≡ true → result < set }
{
    if k < 64 { set & !(1 << k) } else { set }
}

/// The members of a set, in ascending order.
#[derive(Drop)]
pub(crate) struct Members(pub(crate) u64);

impl Iterator for Members {
    type Item = u8;

    ghost next_gives = { λ s r t. TakesLowest s.0 r t.0 };

    ghost remaining = { λ s. at_most s.0 };

    fn next(&mut self) -> Option<u8> {
        let least = lowest(self.0)?;
        self.0 = without(self.0, least);
        Some(least)
    }
}
