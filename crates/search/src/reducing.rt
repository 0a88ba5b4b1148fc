ghost use Rattle.std.specs.Prelude.{◌≡◌, ◌+◌, ◌<◌, not, ◌||◌};
ghost use Rattle.automata.specs.Sets.{has};
ghost use Rattle.automata.specs.Reducing.{under, all_under, spare, reduce as reduce_of};
ghost use Rattle.order.specs.Orders.{rowed};

use automata::sets;

// Stays: the rows are the search's and a set an item's; a struct of both would be made for each question.
/// Whether number `k` is below some state of the set of rule states.
pub(crate) fn is_under(rows: &[u64; 64], set: u32, k: u8) -> bool
    ensures { result ≡ under (rowed rows.now) set k }
{
    k < 64 && (rows[k as usize] >> 32) & u64::from(set) != 0
}

/// Whether rule state `s` is not in the first set, or below some state of the second.
fn is_met(rows: &[u64; 64], set: u32, other: u32, s: u8) -> bool
    requires { s < 32 }
    ensures { result ≡ (not (has set s) || under (rowed rows.now) other (32 + s)) }
{
    !sets::contains(set, s) || is_under(rows, other, 32 + s)
}

/// Whether each state of the first set is below some state of the second.
pub(crate) fn are_under(rows: &[u64; 64], set: u32, other: u32) -> bool
    ensures { result ≡ all_under (rowed rows.now) set other }
{
    (0..32).all(|s| is_met(rows, set, other, s))
}

/// Whether rule state `s` is in the set, and below another state of it.
#[tactic(auto, unfolding(automata::specs::Reducing::spare))]
fn is_spare(rows: &[u64; 64], set: u32, s: u8) -> bool
    requires { s < 32 }
    ensures { result ≡ spare (rowed rows.now) set s }
{
    sets::contains(set, s) && is_under(rows, sets::without(set, s), 32 + s)
}

/// The reduced set: its states are gone through in ascending order, and each is dropped that is below another state
/// still there.
pub(crate) fn reduce(rows: &[u64; 64], set: u32) -> u32
    ensures { result ≡ reduce_of (rowed rows.now) set }
{
    let mut left = set;
    for s in 0..32u8 {
        if is_spare(rows, left, s) {
            left = sets::without(left, s);
        }
    }
    left
}
