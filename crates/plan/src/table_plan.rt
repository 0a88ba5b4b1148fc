ghost use Rattle.std.specs.Prelude.{◌≡◌, ℕ, ◌+◌, ◌*◌, ◌/◌, ◌%◌, ◌<◌, ◌≤◌, length, slice_index};
ghost use Rattle.plan.specs.Tables.{drawn};

use crate::interface::Plan;
use crate::table::Table;

impl Plan for Table {
    ghost meaning = { drawn };

    fn count(&self) -> u8 {
        self.count
    }

    fn starts(&self) -> u32 {
        self.starts
    }

    fn ends(&self) -> u32 {
        self.ends
    }

    fn targets(&self, state: u8, command: u8) -> u32 {
        if state < self.count && command < 26 {
            self.arrows[state as usize * 26 + command as usize]
        } else {
            0
        }
    }
}

/// All sets of targets of a plan, each asked for once: those of state s under command c at place s * 26 + c. A state that
/// does not exist has none, and the plan is not asked.
fn all_targets<P: Plan>(plan: &P) -> [u32; 832]
    ensures { (k : ℕ) → k < 832 → slice_index result k ≡ (P.Plan.meaning plan.now).targets (k / 26) (k % 26) }
{
    let places = 26 * plan.count() as usize;
    let mut arrows = [0; 832];
    for (k, set) in arrows[..places].iter_mut().enumerate() {
        *set = plan.targets((k / 26) as u8, (k % 26) as u8);
    }
    arrows
}

impl Table {
    /// A table that holds the same plan as the one given.
    pub fn copy_of<P: Plan>(plan: &P) -> Table
        ensures { drawn result ≡ P.Plan.meaning plan.now }
    {
        let count = plan.count();
        Table {
            count,
            starts: plan.starts(),
            ends: plan.ends(),
            arrows: all_targets(plan),
        }
    }
}
