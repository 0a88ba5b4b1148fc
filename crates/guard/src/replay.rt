ghost use Rattle.std.specs.Prelude.{◌≡◌, ◌-◌, min, map, length, take, drop, replicate, IfOk};
ghost use Rattle.order.specs.Orders.{rowed};
ghost use Rattle.calls.specs.Calls as calls;
ghost use Rattle.walk.specs.Lists.{All};
ghost use Rattle.calls.specs.Guards.{step, answers as answers_of};
ghost use Rattle.calls.specs.Promise.{WholePromise};
ghost use Rattle.guard.specs.Meanings.{guard_of, call_of, answer_of, Clear, as_done, as_found};

use crate::call::{Answer, Call, SearchTerms};
use crate::guard::Guard;
use plan::refusal::Refusal;
use search::pair::Pair;
use walk::slot::Slot;
use walk::verdict::Numbers;
use walk::walk::usable;

/// Slots that are not used yet, as many as can be used.
fn blank_slots<I: Copy>(item: I) -> [Slot<I>; 4096]
    ensures { length result ≡ 4096 }
{
    [Slot::blank(item); 4096]
}

/// A run buffer of zeros, as long as can be used.
fn zeros() -> [u8; 4096]
    ensures { result ≡ replicate 4096 0 }
{
    [0; 4096]
}

/// What a drawing that was done, or its refusal, is as an answer.
fn done(outcome: Result<(), Refusal>) -> Answer
    ensures answer { answer_of result ≡ as_done outcome }
    ensures clear { Clear result }
{
    outcome.map_or_else(Answer::Refused, |()| Answer::Done)
}

/// What a search found, with its run in front of the buffer, or its refusal, is as an answer.
fn found(outcome: Result<Numbers, Refusal>, run: [u8; 4096]) -> Answer
    ensures answer { answer_of result ≡ as_found outcome run }
    ensures clear { IfOk outcome (λ a. drop a.1 run ≡ replicate (4096 - a.1) 0) → Clear result }
{
    outcome.map_or_else(
        Answer::Refused,
        |(verdict, length, stored)| Answer::Found {
            verdict,
            length,
            stored,
            run,
        },
    )
}

impl Guard {
    // Stays: no plainer: one function with a closure would take what either search promises as its premise.
    /// A listed comparison.
    fn compare_listed(&mut self, terms: &SearchTerms) -> Answer
        ensures answer { (guard_of self.new, answer_of result) ≡ step (guard_of self.old) (calls.Search calls.Compare (rowed terms.now.order) terms.now.slots terms.now.bytes) }
        ensures clear { Clear result }
    {
        let mut store = blank_slots(Pair::default());
        let mut run = zeros();
        let outcome = self.compare(
            &terms.order,
            &mut store[..usable(terms.slots)],
            &mut run[..usable(terms.bytes)],
        );
        found(outcome, run)
    }

    /// A listed question whether the rule is open.
    fn open_listed(&self, commands: u8, terms: &SearchTerms) -> Answer
        ensures answer { (guard_of self.now, answer_of result) ≡ step (guard_of self.now) (calls.Search (calls.Open commands) (rowed terms.now.order) terms.now.slots terms.now.bytes) }
        ensures clear { Clear result }
    {
        let mut store = blank_slots(0u32);
        let mut run = zeros();
        let outcome = self.open(
            commands,
            &terms.order,
            &mut store[..usable(terms.slots)],
            &mut run[..usable(terms.bytes)],
        );
        found(outcome, run)
    }

    /// Puts the answer to a listed call, by the guard's own calls, in its place: handed back, it would be moved once more,
    /// with room for its run.
    fn apply(&mut self, call: &Call, place: &mut Answer)
        ensures answer { (guard_of self.new, answer_of place.new) ≡ step (guard_of self.old) (call_of call.now) }
        ensures clear { Clear place.new }
    {
        *place = match call {
            Call::State { side } => self
                .state(*side)
                .map_or_else(Answer::Refused, Answer::Number),
            Call::Start { side, state } => done(self.start(*side, *state)),
            Call::End { side, state } => done(self.end(*side, *state)),
            Call::Arrow {
                side,
                from,
                command,
                to,
            } => done(self.arrow(*side, *from, *command, *to)),
            Call::Lift {
                side,
                from,
                command,
                to,
            } => done(self.lift(*side, *from, *command, *to)),
            Call::Compare { terms } => self.compare_listed(terms),
            Call::Open { commands, terms } => self.open_listed(*commands, terms),
            Call::Release => self
                .release()
                .map_or_else(Answer::Refused, |()| Answer::Granted),
        };
    }
}

/// Works a list of calls through on a blank guard, and answers each in its place: as many as there are calls and places
/// for answers. Returns how many; the places behind them stay as they are.
///
/// Nothing can fail here. What is promised of the answers is the whole promise of the guard, for every list of calls,
/// refused ones among them.
pub fn replay(calls: &[Call], answers: &mut [Answer]) -> usize
    ensures number { result ≡ min (length calls.now) (length answers.old) }
    ensures answered { map answer_of (take result answers.new) ≡ answers_of (take result (map call_of calls.now)) }
    ensures clear { All Clear (take result answers.new) }
    ensures kept { drop result answers.new ≡ drop result answers.old }
    ensures promise { WholePromise (take result (map call_of calls.now)) (map answer_of (take result answers.new)) }
{
    let mut guard = Guard::new();
    let count = calls.len().min(answers.len());
    // Stays: no plainer: `iter_mut().enumerate()` leaves `calls[place]` instead, and after `zip` a proof knows nothing.
    for (place, call) in calls[..count].iter().enumerate() {
        guard.apply(call, &mut answers[place]);
    }
    count
}
