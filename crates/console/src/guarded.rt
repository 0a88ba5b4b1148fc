use crate::outcomes::{word_number, word_outcome, word_release};
use crate::searches::{Stored, make};
use guard::call::{Answer as Told, Call, SearchTerms};
use guard::guard::Guard;
use guard::replay::replay;
use plan::refusal::Refusal;
use plan::table::Table;
use std::alloc::{AllocError, Global};
use wording::answer::{Answer, word_answer};
use wording::notice::{Notice, word_notice};
use wording::verdict::word_search;

/// The guard of a script, the calls that were made on it, and what was answered to them, line by line.
#[derive(Drop)]
pub(crate) struct Guarded {
    heap: Global,
    guard: Guard,
    calls: Vec<Call>,
    told: Vec<u8>,
}

impl Guarded {
    /// A blank guard.
    pub(crate) fn new(heap: Global) -> Guarded {
        Guarded {
            heap,
            guard: Guard::new(),
            calls: Vec::new(heap),
            told: Vec::new(heap),
        }
    }

    /// The guard as it stands.
    pub(crate) fn guard(&self) -> &Guard {
        &self.guard
    }

    /// The plan of a side.
    pub(crate) fn side(&self, side: u8) -> Result<&Table, Refusal> {
        match side {
            0 => Ok(self.guard.programme()),
            1 => Ok(self.guard.rule()),
            _ => Err(Refusal::NoSuchSide),
        }
    }

    /// Makes a call, appends its answer to `out`, and notes both. A search that is not refused leaves what it stored.
    pub(crate) fn work(
        &mut self,
        call: Call,
        stored: &mut Option<Stored>,
        out: &mut Vec<u8>,
    ) -> Result<(), AllocError> {
        let mut text = Vec::new(self.heap);
        match call {
            Call::State { side } => word_number(&mut text, self.guard.state(side))?,
            Call::Start { side, state } => word_outcome(&mut text, self.guard.start(side, state))?,
            Call::End { side, state } => word_outcome(&mut text, self.guard.end(side, state))?,
            Call::Arrow {
                side,
                from,
                command,
                to,
            } => word_outcome(&mut text, self.guard.arrow(side, from, command, to))?,
            Call::Lift {
                side,
                from,
                command,
                to,
            } => word_outcome(&mut text, self.guard.lift(side, from, command, to))?,
            Call::Compare { terms } => self.compare(&terms, stored, &mut text)?,
            Call::Open { commands, terms } => self.open(commands, &terms, stored, &mut text)?,
            Call::Release => word_release(&mut text, self.guard.release())?,
        }
        self.note(call, text.as_slice(), out)
    }

    /// Notes a call and its answer, and appends the answer to `out`.
    fn note(&mut self, call: Call, text: &[u8], out: &mut Vec<u8>) -> Result<(), AllocError> {
        self.calls.push(call)?;
        self.told.extend_from_slice(text)?;
        self.told.push(b'\n')?;
        out.extend_from_slice(text)
    }

    /// Compares the two sides.
    fn compare(
        &mut self,
        terms: &SearchTerms,
        stored: &mut Option<Stored>,
        text: &mut Vec<u8>,
    ) -> Result<(), AllocError> {
        let guard = &mut self.guard;
        let made = make(self.heap, terms.slots, terms.bytes, |slots, run| {
            guard.compare(&terms.order, slots, run)
        })?;
        if let Some(slots) = made.word(text)? {
            *stored = Some(Stored::Pairs(slots));
        }
        Ok(())
    }

    /// Asks whether the rule is open for so many commands.
    fn open(
        &self,
        commands: u8,
        terms: &SearchTerms,
        stored: &mut Option<Stored>,
        text: &mut Vec<u8>,
    ) -> Result<(), AllocError> {
        let made = make(self.heap, terms.slots, terms.bytes, |slots, run| {
            self.guard.open(commands, &terms.order, slots, run)
        })?;
        if let Some(slots) = made.word(text)? {
            *stored = Some(Stored::Sets(slots));
        }
        Ok(())
    }

    /// Works all calls through once more on a blank guard: whether they are answered as they were.
    pub(crate) fn is_confirmed(&self) -> Result<bool, AllocError> {
        let mut answers = vec![in self.heap; Told::Done; self.calls.len()]?;
        replay(self.calls.as_slice(), answers.as_mut_slice());
        let mut told = Vec::new(self.heap);
        for answer in answers.iter() {
            word_told(&mut told, answer)?;
            told.push(b'\n')?;
        }
        Ok(told == self.told)
    }
}

/// Words an answer to a listed call.
fn word_told(out: &mut Vec<u8>, answer: &Told) -> Result<(), AllocError> {
    match answer {
        Told::Number(number) => word_answer(out, Answer::Number(*number)),
        Told::Done => word_answer(out, Answer::Done),
        Told::Found {
            verdict,
            length,
            stored,
            run,
        } => word_search(out, (*verdict, *length, *stored), run),
        Told::Granted => word_notice(out, Notice::Granted),
        Told::Refused(refusal) => word_answer(out, Answer::Refused(*refusal)),
    }
}
