ghost use Rattle.std.specs.Prelude.{◌≡◌, ℕ, ◌*◌, ◌^◌, ◌<◌, ◌≤◌, slice_index};

/// A plan that is drawn: sets of starts and ends, and for each state and command the set of targets.
#[derive(Drop)]
pub struct Table {
    pub(crate) count: u8,
    pub(crate) starts: u32,
    pub(crate) ends: u32,
    // Stays: no plainer: what a table means is told by the place `s * 26 + c`, and rows of 26 would be flattened for it.
    pub(crate) arrows: [u32; 832],
    ghost few: { count ≤ 32 },
    ghost starting: { starts < 2 ^ count },
    ghost ending: { ends < 2 ^ count },
    ghost within: { (k : ℕ) → slice_index arrows k < 2 ^ count },
    ghost beyond: { (k : ℕ) → 26 * count ≤ k → slice_index arrows k ≡ 0 },
}
