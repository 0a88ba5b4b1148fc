ghost use Rattle.search.specs.Answering.{ComparePromise};

use crate::admission::admit;
use crate::pair::Pair;
use crate::pairs::Pairs;
use order::interface::Order;
use order::rows::rows_of;
use plan::interface::Plan;
use plan::refusal::Refusal;
use walk::slot::Slot;
use walk::verdict::Numbers;
use walk::walk::walk;

/// Compares a programme with a rule by an order: verdict (0 passed, 1 failed, 2 full), length of the run, and number
/// of stored items, as the walk over pairs gives them, with its slots and its run; what it does not fill stays.
///
/// Refused, with nothing changed, where the run buffer is shorter than the usable slots (5), and where the order
/// breaks a law (6 to 9). Unless full, passed is answered exactly when the rule permits every run of the programme;
/// failed comes with a shortest run that the programme permits and the rule does not. More slots give the same answer
/// again, and the answer is never full where there are as many usable slots as pairs of a programme state and a set of
/// rule states.
pub fn compare<'a, P: Plan, R: Plan, O: Order>(
    programme: &'a P,
    rule: &'a R,
    order: &O,
    slots: &mut [Slot<Pair>],
    run: &mut [u8],
) -> Result<Numbers, Refusal>
    ensures { ComparePromise (P.Plan.meaning programme.now) (R.Plan.meaning rule.now) (O.Order.below order.now) result slots.old slots.new run.old run.new }
{
    admit(programme, rule, order, run.len(), slots.len())?;
    let search = Pairs {
        programme,
        rule,
        rows: rows_of(order),
    };
    let answer = walk(&search, slots, run).ok_or(Refusal::RunBufferShort)?;
    Ok(answer)
}
