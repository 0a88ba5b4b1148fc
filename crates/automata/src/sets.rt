ghost use Rattle.std.specs.Prelude.{◌≡◌, ◌<◌, ◌≤◌};
ghost use Rattle.automata.specs.Sets.{has, along, without as less};

// Stays: a trait for these sets and those of 64 bits would have each body twice, in an impl for either width; and a
// function over `Into<u64>` would not do, since `with` and `without` hand the width back.

/// Whether `k` is in the set: bit `k` is set. No number from 32 on is.
pub fn contains(set: u32, k: u8) -> bool
    ensures { result ≡ has set k }
{
    k < 32 && (set >> k) % 2 == 1
}

/// The set and `k`; from 32 on, where there is no bit for `k`, the set as it is.
pub fn with(set: u32, k: u8) -> u32
    ensures added { k < 32 → result ≡ along set k }
    ensures no_bit { 32 ≤ k → result ≡ set }
{
    if k < 32 { set | (1 << k) } else { set }
}

/// The set without `k`.
pub fn without(set: u32, k: u8) -> u32
    ensures taken { k < 32 → result ≡ less set k }
    ensures no_bit { 32 ≤ k → result ≡ set }
{
    if k < 32 { set & !(1 << k) } else { set }
}
