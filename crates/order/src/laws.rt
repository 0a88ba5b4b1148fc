ghost use Rattle.std.specs.Prelude.{◌≡◌, ℕ, ◌<◌, true, ◌↔◌, [], MatchResult, OnOk, slice_index};
ghost use Rattle.std.proofs.Math.Option.{none, some};
ghost use Rattle.automata.specs.Sets.{has};
ghost use Rattle.automata.specs.Relations.{bits, among, listed};
ghost use Rattle.automata.specs.Laws.{Reflexive, Transitive, KeepsEnds, KeepsArrows, Laws, Lawful};
ghost use Rattle.automata.specs.Searches.{StopsReflexive, StopsTransitive, StopsEnds, StopsArrows};
ghost use Rattle.automata.specs.Greatest.{KeepsRuns};
ghost use Rattle.automata.specs.Refining.{Matches};
ghost use Rattle.automata.specs.Testing.{tested};
ghost use Rattle.plan.specs.Refusals.{report_of};
ghost use Rattle.order.specs.Verdicts.{Reports, Rejected};

use crate::interface::Order;
use crate::refining::settle;
use crate::rows::rows_by;
use crate::sets::{Members, are_disjoint, contains, lowest};
use crate::sides::Sides;
use crate::sources::sources;
use plan::interface::Plan;
use plan::refusal::Refusal;

/// Whether `p` and `r` are among the states and `p` is below `r`. The order is asked about existing states alone.
#[tactic(auto, unfolding(automata::specs::Relations::among))]
fn is_related<O: Order>(order: &O, states: u64, p: u8, r: u8) -> bool
    ensures { result ≡ among (has states) (O.Order.below order.now) p r }
{
    contains(states, p) && contains(states, r) && order.is_below(p, r)
}

/// The order between the states, taken down as rows.
fn rows_among<O: Order>(order: &O, states: u64) -> [u64; 64]
    ensures { (p r : ℕ) → bits result p r ≡ among (has states) (O.Order.below order.now) p r }
{
    rows_by(|p, r| is_related(order, states, p, r))
}

/// Refuses at the first state that is not below itself.
fn not_reflexive(states: u64, rows: &[u64; 64]) -> Result<(), Refusal>
    ensures { MatchResult result (λ _. Reflexive (has states) (bits rows.now)) (λ e. (p : ℕ) × (e ≡ Refusal.NotReflexive p) × StopsReflexive (has states) (bits rows.now) p) }
{
    for p in Members(states) {
        if !contains(rows[p as usize], p) {
            return Err(Refusal::NotReflexive { p });
        }
    }
    Ok(())
}

/// Refuses at the first three states of which two pairs are there and the third is not.
fn not_transitive(rows: &[u64; 64]) -> Result<(), Refusal>
    ensures { MatchResult result (λ _. Transitive (bits rows.now)) (λ e. (p : ℕ) × (q : ℕ) × (r : ℕ) × (e ≡ Refusal.NotTransitive p q r) × StopsTransitive (bits rows.now) p q r) }
{
    for (p, row) in rows.iter().enumerate() {
        for q in Members(*row) {
            if let Some(r) = lowest(rows[q as usize] & !row) {
                return Err(Refusal::NotTransitive { p: p as u8, q, r });
            }
        }
    }
    Ok(())
}

/// Refuses at the first end that is below a state that is none.
fn end_not_kept(ends: u64, rows: &[u64; 64]) -> Result<(), Refusal>
    ensures { MatchResult result (λ _. KeepsEnds (listed ends []) (bits rows.now)) (λ e. (p : ℕ) × (r : ℕ) × (e ≡ Refusal.EndNotKept p r) × StopsEnds (listed ends []) (bits rows.now) p r) }
{
    for p in Members(ends) {
        if let Some(r) = lowest(rows[p as usize] & !ends) {
            return Err(Refusal::EndNotKept { p, r });
        }
    }
    Ok(())
}

/// The rows with the pairs alone whose arrows are all matched, in bulk: the law of arrows holds when no pair is lost.
fn matched(sources: &[u64; 1664], rows: &[u64; 64]) -> [u64; 64]
    ensures { (p r : ℕ) → (bits result p r ≡ true) ↔ ((bits rows.now p r ≡ true) × ((t : ℕ) → t < 64 → Matches sources.now t (slice_index rows.now t) p r)) }
{
    let mut left = *rows;
    for (t, above) in rows.iter().enumerate() {
        let _ = settle(sources, t as u8, *above, &mut left);
    }
    left
}

/// Refuses at the first arrow of a state that a state above it does not match. A pair that the check in bulk has left
/// is passed.
fn arrow_not_matched(targets: &[u64; 1664], rows: &[u64; 64]) -> Result<(), Refusal>
    ensures { MatchResult result (λ _. KeepsArrows (listed 0 targets.now) (bits rows.now)) (λ e. (p : ℕ) × (r : ℕ) × (c : ℕ) × (t : ℕ) × (e ≡ Refusal.ArrowNotMatched p r c t) × StopsArrows (listed 0 targets.now) (bits rows.now) p r c t) }
{
    let sources = sources(targets);
    let left = matched(&sources, rows);
    // Stays: nested loops that are left by label are a form of the project (docs/DECISIONS.md, "Forms").
    let mut found = Ok(());
    'law: for p in 0..64u8 {
        for r in Members(rows[p as usize] & !left[p as usize]) {
            for command in 0..26u8 {
                for target in Members(targets[p as usize * 26 + command as usize]) {
                    let answers = targets[r as usize * 26 + command as usize];
                    if are_disjoint(rows[target as usize], answers) {
                        found = Err(Refusal::ArrowNotMatched {
                            p,
                            r,
                            command,
                            target,
                        });
                        break 'law;
                    }
                }
            }
        }
    }
    found
}

/// Refuses at the first offence against the laws, one law after the other.
fn first_offence(sides: &Sides, rows: &[u64; 64]) -> Result<(), Refusal>
    ensures { MatchResult result (λ _. Laws (has sides.now.states) (listed sides.now.ends sides.now.targets) (bits rows.now)) (λ e. Reports e (has sides.now.states) (listed sides.now.ends sides.now.targets) (bits rows.now)) }
{
    not_reflexive(sides.states, rows)?;
    not_transitive(rows)?;
    end_not_kept(sides.ends, rows)?;
    arrow_not_matched(&sides.targets, rows)
}

// Stays: programme and rule travel together everywhere; they are plans of two types that the caller holds, and a struct
// of both would be made at each call.
/// Tests the four laws of an order in a comparison of two plans, over existing states alone and in this order: each
/// state is below itself; when `p` is below `q` and `q` below `r`, `p` is below `r`; when `p` is below `r` and an end,
/// `r` is an end; when `p` is below `r` and has an arrow under a command to `t`, `r` has one under it to some `u` with
/// `t` below `u`.
///
/// The order is accepted exactly when the laws hold, and then a run that leads from a state to an end leads from every
/// state above it to an end. Otherwise the refusal is 6, 7, 8 or 9, by the first law that is broken, with the first
/// states at which it is, compared number by number: nothing that comes before in this order offends.
pub fn test<P: Plan, R: Plan, O: Order>(programme: &P, rule: &R, order: &O) -> Result<(), Refusal>
    ensures laws { MatchResult result (λ _. Lawful (P.Plan.meaning programme.now) (R.Plan.meaning rule.now) (O.Order.below order.now)) (λ e. Rejected (P.Plan.meaning programme.now) (R.Plan.meaning rule.now) (O.Order.below order.now) e) }
    ensures report { MatchResult result (λ _. tested (P.Plan.meaning programme.now) (R.Plan.meaning rule.now) (O.Order.below order.now) ≡ none) (λ e. tested (P.Plan.meaning programme.now) (R.Plan.meaning rule.now) (O.Order.below order.now) ≡ some (report_of e)) }
    ensures runs { OnOk result (KeepsRuns (P.Plan.meaning programme.now) (R.Plan.meaning rule.now) (O.Order.below order.now)) }
{
    let sides = Sides::of(programme, rule);
    let rows = rows_among(order, sides.states);
    first_offence(&sides, &rows)
}
