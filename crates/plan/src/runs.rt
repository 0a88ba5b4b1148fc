ghost use Rattle.std.specs.Prelude.{◌≡◌, ◌^◌, ◌<◌, true};
ghost use Rattle.automata.specs.Runs.{Permits};
ghost use Rattle.automata.specs.Steps.{onward as led_on};

use crate::interface::Plan;
use automata::sets;

/// The states to which arrows under `command` lead from the states of the set.
pub fn onward<P: Plan>(plan: &P, set: u32, command: u8) -> u32
    ensures { result ≡ led_on (P.Plan.meaning plan.now) set command }
{
    let mut reached = 0;
    for s in 0..plan.count() {
        if sets::contains(set, s) {
            reached |= plan.targets(s, command);
        }
    }
    reached
}

/// Whether the plan permits the run: a chain of arrows with its commands in order leads from a start to an end. The
/// empty run is permitted exactly when some start is an end; a run with a command that does not exist never is.
pub fn permits<P: Plan>(plan: &P, run: &[u8]) -> bool
    ensures only { result ≡ true → Permits (P.Plan.meaning plan.now) run.now }
    ensures every { Permits (P.Plan.meaning plan.now) run.now → result ≡ true }
{
    if plan.count() == 0 {
        return false;
    }
    let reached = run
        .iter()
        .fold(plan.starts(), |set, command| onward(plan, set, *command));
    reached & plan.ends() != 0
}
