#![tactic(auto, unfolding(crate::specs::Pairs::pairs))]

ghost use Rattle.std.specs.Prelude.{◌≡◌, ◌&&◌, eqb};
ghost use Rattle.std.specs.Int.Bits.{bit_and};
ghost use Rattle.automata.specs.Sets.{has};
ghost use Rattle.order.specs.Orders.{rowed};
ghost use Rattle.search.specs.Pairs.{at as placed, pairs as pair_kind, FitPair, PairMisses};

use crate::pair::Pair;
use crate::reducing::{are_under, is_under, reduce};
use automata::sets;
use order::interface::Order;
use plan::interface::Plan;
use plan::runs::onward;
use walk::search::Search;

/// A comparison: the two plans, and the order between their states as sixty-four rows.
#[derive(Drop)]
pub(crate) struct Pairs<'a, P, R> {
    pub programme: &'a P,
    pub rule: &'a R,
    pub rows: [u64; 64],
}

impl<'a, P: Plan, R: Plan> Search for Pairs<'a, P, R> {
    type Item = Pair;

    ghost kind = { λ s. pair_kind (P.Plan.meaning s.programme.now) (R.Plan.meaning s.rule.now) (rowed s.rows) };

    ghost with = { λ s i h. placed i h };

    ghost fit = { λ s i. FitPair (P.Plan.meaning s.programme.now) (R.Plan.meaning s.rule.now) i };

    ghost misses = { λ s i w. PairMisses (P.Plan.meaning s.programme.now) (R.Plan.meaning s.rule.now) i w };

    fn commands(&self) -> u8 {
        26
    }

    fn starts(&self) -> (u32, Pair) {
        let heads = self.programme.starts();
        let states = reduce(&self.rows, self.rule.starts());
        (heads, Pair { state: 0, states })
    }

    fn successors(&self, item: Pair, command: u8) -> (u32, Pair) {
        let heads = self.programme.targets(item.state, command);
        let states = reduce(&self.rows, onward(self.rule, item.states, command));
        (heads, Pair { state: 0, states })
    }

    fn put(&self, base: Pair, head: u8) -> Pair {
        Pair {
            state: head,
            ..base
        }
    }

    fn hit(&self, item: Pair) -> bool {
        sets::contains(self.programme.ends(), item.state) && item.states & self.rule.ends() == 0
    }

    fn hopeless(&self, item: Pair) -> bool {
        is_under(&self.rows, item.states, item.state)
    }

    fn covers(&self, item: Pair, other: Pair) -> bool {
        self.rows.is_below(other.state, item.state)
            && are_under(&self.rows, item.states, other.states)
    }
}
