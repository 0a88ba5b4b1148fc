#![tactic(auto, using(crate::proofs::Fanned::one_fan), unfolding(crate::specs::StateSets::sets, walk::specs::Fans::select))]

ghost use Rattle.std.specs.Prelude.{◌≡◌, eqb};
ghost use Rattle.std.specs.Int.Bits.{bit_and};
ghost use Rattle.order.specs.Orders.{rowed};
ghost use Rattle.search.specs.StateSets.{sets as set_kind, FitSet, SetMisses};

use crate::reducing::{are_under, reduce};
use plan::interface::Plan;
use plan::runs::onward;
use walk::search::Search;

/// The question whether a rule permits every run of the first commands: the rule, the order between its states as
/// sixty-four rows, and how many commands there are.
#[derive(Drop)]
pub(crate) struct StateSets<'a, R> {
    pub rule: &'a R,
    pub rows: [u64; 64],
    pub count: u8,
}

impl<'a, R: Plan> Search for StateSets<'a, R> {
    type Item = u32;

    ghost kind = { λ s. set_kind (R.Plan.meaning s.rule.now) (rowed s.rows) s.count };

    ghost with = { λ s i h. i };

    ghost fit = { λ s i. FitSet (R.Plan.meaning s.rule.now) i };

    ghost misses = { λ s i w. SetMisses (R.Plan.meaning s.rule.now) s.count i w };

    fn commands(&self) -> u8 {
        self.count
    }

    fn starts(&self) -> (u32, u32) {
        (1, reduce(&self.rows, self.rule.starts()))
    }

    fn successors(&self, item: u32, command: u8) -> (u32, u32) {
        (1, reduce(&self.rows, onward(self.rule, item, command)))
    }

    fn put(&self, base: u32, head: u8) -> u32 {
        base
    }

    fn hit(&self, item: u32) -> bool {
        item & self.rule.ends() == 0
    }

    fn hopeless(&self, item: u32) -> bool {
        false
    }

    fn covers(&self, item: u32, other: u32) -> bool {
        are_under(&self.rows, item, other)
    }
}
