ghost use Rattle.std.specs.Prelude.{◌≡◌, ◌≤◌, MatchResult, OnOk};
ghost use Rattle.std.proofs.Math.Option.{none, some};
ghost use Rattle.walk.specs.Answers.{usable_of};
ghost use Rattle.automata.specs.Nfa.{Proper};
ghost use Rattle.automata.specs.Laws.{Lawful};
ghost use Rattle.plan.specs.Refusals.{report_of};
ghost use Rattle.search.specs.Answering.{compare_refusal};

use order::interface::Order;
use order::laws::test;
use plan::interface::Plan;
use plan::refusal::Refusal;
use walk::walk::usable;

/// Tests what a comparison of a programme with a rule by an order needs, with a run buffer of so many bytes and so many
/// slots: refused where the buffer is shorter than the usable slots (5), and where the order breaks a law (6 to 9).
pub(crate) fn admit<P: Plan, R: Plan, O: Order>(
    programme: &P,
    rule: &R,
    order: &O,
    bytes: usize,
    slots: usize,
) -> Result<(), Refusal>
    ensures report { MatchResult result (λ _. compare_refusal (P.Plan.meaning programme.now) (R.Plan.meaning rule.now) (O.Order.below order.now) bytes (usable_of slots) ≡ none) (λ e. compare_refusal (P.Plan.meaning programme.now) (R.Plan.meaning rule.now) (O.Order.below order.now) bytes (usable_of slots) ≡ some (report_of e)) }
    ensures laws { OnOk result (Lawful (P.Plan.meaning programme.now) (R.Plan.meaning rule.now) (O.Order.below order.now)) }
    ensures room { OnOk result (usable_of slots ≤ bytes) }
    ensures programme { Proper (P.Plan.meaning programme.now) }
    ensures rule { Proper (R.Plan.meaning rule.now) }
{
    // Asked for what `count` promises: that each plan is proper.
    let _ = (programme.count(), rule.count());
    if bytes < usable(slots) {
        return Err(Refusal::RunBufferShort);
    }
    test(programme, rule, order)
}
