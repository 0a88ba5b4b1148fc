ghost use Rattle.std.specs.Prelude.{◌≡◌, ℕ, Bool};
ghost use Rattle.automata.specs.Sets.{has};
ghost use Rattle.automata.specs.Numbering.{Confined};
ghost use Rattle.automata.specs.Relations.{bits, listed};
ghost use Rattle.automata.specs.Laws.{Lawful, Simulates};
ghost use Rattle.automata.specs.Greatest.{Largest, Greatest, KeepsRuns};
ghost use Rattle.automata.specs.Refining.{candidate};
ghost use Rattle.order.specs.Orders.{rowed};

use crate::refining::settle;
use crate::sets::{contains, highest, without};
use crate::sides::Sides;
use crate::sources::sources;
use plan::interface::Plan;
use std::array;

/// The existing states that `p` may be below by the law of ends.
fn candidates_of(states: u64, ends: u64, p: u8) -> u64
    ensures { (r : ℕ) → has result r ≡ candidate (has states) ends p r }
{
    if !contains(states, p) {
        0
    } else if contains(ends, p) {
        states & ends
    } else {
        states
    }
}

/// The pairs that are in some simulation: the candidates, narrowed until every arrow is matched. A number waits
/// when its row has changed since the arrows to it were last matched.
fn simulation(sides: &Sides) -> [u64; 64]
    requires { Confined (has sides.now.states) (listed sides.now.ends sides.now.targets) }
    ensures { Largest (has sides.now.states) (listed sides.now.ends sides.now.targets) (bits result) }
{
    let sources = sources(&sides.targets);
    let mut rows = array::from_fn(|p| candidates_of(sides.states, sides.ends, p as u8));
    let mut waiting = sides.states;
    while let Some(t) = highest(waiting) {
        let changed = settle(&sources, t, rows[t as usize], &mut rows);
        waiting = without(waiting, t) | changed;
    }
    rows
}

/// The greatest order of two plans, as sixty-four rows that are an order themselves: `p` is below `r` exactly when both
/// states exist and some relation that keeps the last two laws has the pair.
///
/// The greatest order keeps all four laws. And whatever relation keeps the last two laws, a run that leads from a state
/// to an end leads from every state above it to an end.
pub fn rank<P: Plan, R: Plan>(programme: &P, rule: &R) -> [u64; 64]
    ensures greatest { Greatest (P.Plan.meaning programme.now) (R.Plan.meaning rule.now) (rowed result) }
    ensures lawful { Lawful (P.Plan.meaning programme.now) (R.Plan.meaning rule.now) (rowed result) }
    ensures runs { (o : ℕ → ℕ → Bool) → Simulates (P.Plan.meaning programme.now) (R.Plan.meaning rule.now) o → KeepsRuns (P.Plan.meaning programme.now) (R.Plan.meaning rule.now) o }
{
    simulation(&Sides::of(programme, rule))
}
