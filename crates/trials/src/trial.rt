ghost use Rattle.std.specs.Prelude.{◌≡◌, min};

use crate::answer::{Answer, Outcome, Verdict};
use crate::both::Both;
use crate::buffers::Call;
use crate::question::Question;
use crate::session::Session;
use crate::subject::Subject;
use crate::tally::{Difference, Fault, Kind};
use order::interface::Order;
use plan::refusal::Refusal;
use std::alloc::AllocError;

/// The numbers of slots that every question is asked with, ascending. The first 4,096 of them are usable.
const NUMBERS: [usize; 9] = [0, 1, 2, 3, 5, 8, 40, 4096, 5000];

// Stays: the walk counts its usable slots too. The checker shares nothing with what it checks.
/// How many of so many slots are usable.
fn usable(slots: usize) -> usize
    ensures { result ≡ min slots 4096 }
{
    slots.min(4096)
}

/// The number of a refusal that is due, its values with zeros behind them, and how many they are; none for a refusal that
/// never is.
fn report_due(due: Refusal) -> Option<(u8, [usize; 4], usize)> {
    match due {
        Refusal::RunBufferShort => Some((5, [0; 4], 0)),
        Refusal::NotReflexive { p } => Some((6, [p as usize, 0, 0, 0], 1)),
        Refusal::NotTransitive { p, q, r } => {
            Some((7, [p as usize, q as usize, r as usize, 0], 3))
        }
        Refusal::EndNotKept { p, r } => Some((8, [p as usize, r as usize, 0, 0], 2)),
        Refusal::ArrowNotMatched {
            p,
            r,
            command,
            target,
        } => Some((
            9,
            [p as usize, r as usize, command as usize, target as usize],
            4,
        )),
        Refusal::CommandCount => Some((10, [0; 4], 0)),
        _ => None,
    }
}

/// Whether it is the refusal that is due, and tells the number and the values that are due.
fn is_due(refusal: Refusal, due: Refusal) -> bool {
    report_due(due).is_some_and(|(number, values, count)| {
        refusal == due
            && refusal.number() == number
            && refusal.values().as_slice() == &values[..count.min(4)]
    })
}

/// An answer with its run.
#[derive(PartialEq, Eq, Drop)]
struct Given {
    answer: Answer,
    run: Vec<u8>,
}

impl Given {
    /// Whether it says that the slots did not suffice.
    fn is_full(&self) -> bool {
        self.answer
            .is_ok_and(|outcome| outcome.verdict == Verdict::Full)
    }
}

/// Whether it is what was given first. Where nothing was, it is the first.
fn agrees(first: &mut Option<Given>, given: Given) -> bool {
    let given = Some(given);
    if first.is_none() {
        *first = given;
        true
    } else {
        *first == given
    }
}

/// A question under an order, and what the checker says of it.
#[derive(Drop)]
pub(crate) struct Trial<'a, O> {
    pub subject: Subject<'a>,
    pub kind: Kind,
    pub order: &'a O,
    /// Whether the order keeps the laws, and else the refusal that is due.
    pub laws: Result<(), Refusal>,
    /// From how many usable slots on the answer may not be full.
    pub enough: usize,
}

impl<'a, O: Order> Trial<'a, O> {
    /// Notes that something differs.
    pub(crate) fn note(
        &self,
        slots: usize,
        fault: Fault,
        session: &mut Session,
    ) -> Result<(), AllocError> {
        session.tally.note(Difference {
            seed: self.subject.round.seed,
            question: self.subject.question,
            kind: self.kind,
            slots,
            fault,
        })
    }

    /// Judges what was found with so many slots.
    fn judge_outcome(&self, slots: usize, outcome: Outcome) -> Result<(), Fault> {
        let usable = usable(slots);
        if outcome.stored > usable {
            return Err(Fault::Stored);
        }
        match (outcome.verdict, self.subject.missed) {
            (Verdict::Passed, None) => Ok(()),
            (Verdict::Failed, Some(length)) if outcome.length == length => Ok(()),
            (Verdict::Failed, Some(_)) => Err(Fault::Length),
            (Verdict::Full, _) if outcome.stored == usable && usable < self.enough => Ok(()),
            (Verdict::Full, _) => Err(Fault::Full),
            _ => Err(Fault::Verdict),
        }
    }

    /// Judges an answer to a call with so many slots.
    fn judge(&self, slots: usize, answer: Answer) -> Result<(), Fault> {
        match (answer, self.laws) {
            (Ok(outcome), Ok(())) => self.judge_outcome(slots, outcome),
            (Err(refusal), Err(due)) if is_due(refusal, due) => Ok(()),
            _ => Err(Fault::Refusal),
        }
    }

    /// Judges the run that came with an answer: where it failed, the programme permits the run and the rule does not.
    fn judge_run(&self, answer: Answer, run: &[u8]) -> Result<(), Fault> {
        match answer {
            Ok(outcome) if outcome.verdict == Verdict::Failed => {
                if self.subject.asked.permits(run) && !self.subject.sides.rule.permits(run) {
                    Ok(())
                } else {
                    Err(Fault::Run)
                }
            }
            _ => Ok(()),
        }
    }

    /// Makes a call and counts its answer.
    fn ask(&self, call: Call, session: &mut Session) -> Answer {
        let answer = session
            .bench
            .ask(&self.subject.round.plans, self.order, call);
        session.tally.count(self.subject.question, answer);
        answer
    }

    /// Makes a call, and holds its answer, its run and what it left of the buffers against the checker.
    fn make(&self, call: Call, session: &mut Session) -> Result<Given, AllocError> {
        let answer = self.ask(call, session);
        let run = Vec::from_slice(session.heap, session.bench.run(answer))?;
        if let Err(fault) = self.judge(call.slots, answer) {
            self.note(call.slots, fault, session)?;
        }
        let judged = session
            .bench
            .check_kept(call, answer)
            .and_then(|()| self.judge_run(answer, run.as_slice()));
        if let Err(fault) = judged {
            self.note(call.slots, fault, session)?;
        }
        Ok(Given { answer, run })
    }

    /// Asks with every number of slots. From the first answer that is not full on, all are the same.
    fn hold_numbers(&self, session: &mut Session) -> Result<(), AllocError> {
        let mut first = None;
        for (k, slots) in NUMBERS.into_iter().enumerate() {
            let number = self.subject.round.seed.wrapping_add(1 + k as u64);
            let call = Call {
                question: self.subject.question,
                slots,
                bytes: usable(slots).saturating_add((number % 3) as usize),
                forms: Both::from(number),
            };
            let given = self.make(call, session)?;
            if (first.is_some() || !given.is_full()) && !agrees(&mut first, given) {
                self.note(slots, Fault::Changed, session)?;
            }
        }
        Ok(())
    }

    /// Asks with one number of slots and with the plans drawn and read in every way: all answers are the same.
    fn hold_mixes(&self, session: &mut Session) -> Result<(), AllocError> {
        let slots = (self.subject.round.seed % 12) as usize;
        let mut first = None;
        for number in 0..4u64 {
            let call = Call {
                question: self.subject.question,
                slots,
                bytes: slots,
                forms: Both::from(number),
            };
            if !agrees(&mut first, self.make(call, session)?) {
                self.note(slots, Fault::Changed, session)?;
            }
        }
        Ok(())
    }

    /// Makes a call that must be refused, whatever the order, and change nothing.
    fn hold_refusal(
        &self,
        call: Call,
        due: Refusal,
        session: &mut Session,
    ) -> Result<(), AllocError> {
        let answer = self.ask(call, session);
        if !answer.is_err_and(|refusal| is_due(refusal, due)) {
            self.note(call.slots, Fault::Refusal, session)?;
        }
        if let Err(fault) = session.bench.check_kept(call, Err(due)) {
            self.note(call.slots, fault, session)?;
        }
        Ok(())
    }

    /// Makes the calls that are refused whatever the order: with a run buffer that is one byte too short, and with a
    /// number of commands that there is not.
    fn hold_refusals(&self, session: &mut Session) -> Result<(), AllocError> {
        let seed = self.subject.round.seed;
        let slots = if seed % 8 == 0 {
            5000
        } else {
            (seed % 40) as usize
        };
        let short = Call {
            question: self.subject.question,
            slots,
            bytes: usable(slots).saturating_sub(1),
            forms: Both::from(seed),
        };
        if slots > 0 {
            self.hold_refusal(short, Refusal::RunBufferShort, session)?;
        }
        if let Question::Open { .. } = self.subject.question {
            let commands = if seed % 2 == 0 { 0 } else { 27 };
            let beyond = Call {
                question: Question::Open { commands },
                bytes: 0,
                ..short
            };
            self.hold_refusal(beyond, Refusal::CommandCount, session)?;
        }
        Ok(())
    }

    /// Holds all answers to the question under the order against the checker and against each other.
    pub(crate) fn hold(&self, session: &mut Session) -> Result<(), AllocError> {
        session.tally.trials = session.tally.trials.wrapping_add(1);
        self.hold_numbers(session)?;
        self.hold_mixes(session)?;
        self.hold_refusals(session)
    }
}
