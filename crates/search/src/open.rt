ghost use Rattle.search.specs.Answering.{OpenPromise};

use crate::admission::admit;
use crate::state_sets::StateSets;
use order::interface::Order;
use order::rows::rows_of;
use plan::interface::Plan;
use plan::refusal::Refusal;
use plan::table::Table;
use walk::slot::Slot;
use walk::verdict::Numbers;
use walk::walk::walk;

/// Whether a rule is open: whether it permits every run of the first `commands` commands. Answers verdict (0 passed,
/// 1 failed, 2 full), length of the run, and number of stored items, as the walk over sets gives them, with its slots
/// and its run; what it does not fill stays.
///
/// Refused, with nothing changed, where the number of commands is not 1 to 26 (10), where the run buffer is shorter
/// than the usable slots (5), and where the order breaks a law beside an empty programme (6 to 9). Unless full, passed
/// is answered exactly when the rule is open; failed comes with a shortest run of those commands that the rule does not
/// permit. More slots give the same answer again, and the answer is never full where there are as many usable slots as
/// sets of rule states.
pub fn open<'a, R: Plan, O: Order>(
    rule: &'a R,
    commands: u8,
    order: &O,
    slots: &mut [Slot<u32>],
    run: &mut [u8],
) -> Result<Numbers, Refusal>
    ensures { OpenPromise (R.Plan.meaning rule.now) commands (O.Order.below order.now) result slots.old slots.new run.old run.new }
{
    if !(1..=26).contains(&commands) {
        return Err(Refusal::CommandCount);
    }
    let empty = Table::new();
    admit(&empty, rule, order, run.len(), slots.len())?;
    let search = StateSets {
        rule,
        rows: rows_of(order),
        count: commands,
    };
    walk(&search, slots, run).ok_or(Refusal::RunBufferShort)
}
