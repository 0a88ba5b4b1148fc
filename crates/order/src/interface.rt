ghost use Rattle.std.specs.Prelude.{◌≡◌, ℕ, Bool};
ghost use Rattle.order.specs.Orders.{Small};

/// An order between the numbers of a comparison's states, asked by one question that changes nothing.
///
/// The ghost member is the set of pairs that are answered yes. No law is asked of it here: the test in `laws` tells
/// whether the four laws hold for two plans.
pub trait Order {
    ghost below: { Self → ℕ → ℕ → Bool };

    /// Whether `p` is below `r`. Where either is not below 64 the answer is no.
    fn is_below(&self, p: u8, r: u8) -> bool
        ensures answer { result ≡ below self.now p r }
        ensures small { Small (below self.now) };
}
