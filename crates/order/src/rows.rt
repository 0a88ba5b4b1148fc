ghost use Rattle.std.specs.Prelude.{◌≡◌, ℕ, ◌<◌, length};
ghost use Rattle.automata.specs.Sets.{has};
ghost use Rattle.automata.specs.Relations.{bits};
ghost use Rattle.order.specs.Orders.{Small, rowed};

use crate::interface::Order;
use crate::sets::contains;

// Stays: sixty-four rows by value are a form of the project (docs/DECISIONS.md, "Forms").
/// Sixty-four rows are an order: bit `r` of row `p` says whether `p` is below `r`.
impl Order for [u64; 64] {
    ghost below = { λ rows p r. rowed rows p r };

    fn is_below(&self, p: u8, r: u8) -> bool {
        p < 64 && r < 64 && contains(self[p as usize], r)
    }
}

/// The set of the numbers below 64 that pass.
fn set_by<F: Fn(u8) -> bool + Drop>(passes: F) -> u64
    requires { F.IsAlwaysCallable passes }
    ensures { (k : ℕ) → k < 64 → F.post passes k (has result k) }
{
    let mut set = 0;
    for k in 0..64u8 {
        if passes(k) {
            set |= 1 << k;
        }
    }
    set
}

/// The rows of the pairs of numbers below 64 that pass: each pair is asked for once.
pub(crate) fn rows_by<F: Fn(u8, u8) -> bool + Drop>(passes: F) -> [u64; 64]
    requires { F.IsAlwaysCallable passes }
    ensures size { length result ≡ 64 }
    ensures pairs { (p r : ℕ) → p < 64 → r < 64 → F.post passes p r (bits result p r) }
    ensures small { Small (bits result) }
{
    // Stays: tried `array::from_fn`; `set_by-requires` stayed open: its closure does not know what `passes` asks.
    let mut rows = [0; 64];
    for (p, row) in rows.iter_mut().enumerate() {
        *row = set_by(|r| passes(p as u8, r));
    }
    rows
}

/// Any order's answers, taken down as sixty-four rows: each pair is asked for once.
pub fn rows_of<O: Order>(order: &O) -> [u64; 64]
    ensures { rowed result ≡ O.Order.below order.now }
{
    rows_by(|p, r| order.is_below(p, r))
}
