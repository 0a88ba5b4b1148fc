ghost use Rattle.std.specs.Prelude.{◌≡◌, ◌+◌, ◌%◌, ◌^◌, ◌<◌};

/// Pseudo-random numbers: splitmix64. The same seed gives the same numbers.
#[derive(Drop)]
pub(crate) struct Random {
    state: u64,
}

impl Random {
    /// The row of numbers that begins at a seed.
    pub(crate) fn new(seed: u64) -> Random
        ensures { result.state ≡ seed }
    {
        Random { state: seed }
    }

    /// The next number.
    pub(crate) fn next(&mut self) -> u64
        ensures { self.new.state ≡ (self.old.state + 0x9e37_79b9_7f4a_7c15) % 2 ^ 64 }
    {
        self.state = self.state.wrapping_add(0x9e37_79b9_7f4a_7c15);
        let mut z = self.state;
        z = (z ^ (z >> 30)).wrapping_mul(0xbf58_476d_1ce4_e5b9);
        z = (z ^ (z >> 27)).wrapping_mul(0x94d0_49bb_1331_11eb);
        z ^ (z >> 31)
    }

    /// A number below the limit; 0 where that is 0.
    pub(crate) fn below(&mut self, limit: u8) -> u8
        ensures { 0 < limit → result < limit }
    {
        let number = self.next() >> 8;
        if limit == 0 {
            return 0;
        }
        (number % u64::from(limit)) as u8
    }

    /// Yes, so many times out of a hundred.
    pub(crate) fn chance(&mut self, percent: u8) -> bool {
        self.below(100) < percent
    }
}
