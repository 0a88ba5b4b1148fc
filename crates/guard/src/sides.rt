ghost use Rattle.std.specs.Prelude.{◌≡◌};
ghost use Rattle.plan.specs.Tables.{drawn};
ghost use Rattle.guard.specs.Meanings.{guard_of};

use crate::guard::Guard;
use plan::table::Table;

impl Guard {
    /// The programme as it is drawn.
    pub fn programme(&self) -> &Table
        ensures { drawn result.now ≡ (guard_of self.now).plans.programme }
    {
        &self.programme
    }

    /// The rule as it is drawn.
    pub fn rule(&self) -> &Table
        ensures { drawn result.now ≡ (guard_of self.now).plans.rule }
    {
        &self.rule
    }
}
