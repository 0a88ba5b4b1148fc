use crate::answer::{Answer, Verdict};
use crate::question::Question;
use plan::refusal::Refusal;
use std::alloc::{AllocError, Global};
use std::fmt;
use thiserror::Error;

/// How many calls were answered how.
#[derive(Clone, Copy, Default)]
pub(crate) struct Counts {
    passed: u64,
    failed: u64,
    full: u64,
    refused: u64,
}

impl Counts {
    /// Counts an answer.
    fn count(&mut self, answer: Answer) {
        let count = match answer.map(|outcome| outcome.verdict) {
            Ok(Verdict::Passed) => &mut self.passed,
            Ok(Verdict::Failed) => &mut self.failed,
            Ok(_) => &mut self.full,
            Err(_) => &mut self.refused,
        };
        *count = count.wrapping_add(1);
    }
}

impl fmt::Display for Counts {
    fn fmt<W: fmt::Write>(&self, f: &mut fmt::Formatter<W>) -> fmt::Result {
        let Counts {
            passed,
            failed,
            full,
            refused,
        } = self;
        write!(
            f,
            "{passed} passed, {failed} failed, {full} full, {refused} refused"
        )
    }
}

/// How many unlawful orders break which law first.
#[derive(Clone, Copy, Default)]
pub(crate) struct Broken {
    first: u64,
    second: u64,
    third: u64,
    fourth: u64,
}

impl Broken {
    /// Counts an order that is to be refused so.
    fn count(&mut self, due: Refusal) {
        let count = match due {
            Refusal::NotReflexive { .. } => &mut self.first,
            Refusal::NotTransitive { .. } => &mut self.second,
            Refusal::EndNotKept { .. } => &mut self.third,
            _ => &mut self.fourth,
        };
        *count = count.wrapping_add(1);
    }
}

impl fmt::Display for Broken {
    fn fmt<W: fmt::Write>(&self, f: &mut fmt::Formatter<W>) -> fmt::Result {
        let Broken {
            first,
            second,
            third,
            fourth,
        } = self;
        let all = first
            .wrapping_add(*second)
            .wrapping_add(*third)
            .wrapping_add(*fourth);
        write!(
            f,
            "{all} unlawful (first law {first}, second {second}, third {third}, fourth {fourth})"
        )
    }
}

/// Which order a question was asked under.
#[derive(Clone, Copy, PartialEq, Eq)]
pub(crate) enum Kind {
    /// Each number is below itself alone.
    Same,
    /// The greatest order.
    Greatest,
    /// A delivered order, mended until it keeps the laws.
    Mended,
    /// A delivered order, as it was drawn.
    Drawn,
}

impl Kind {
    /// Whether it keeps the laws by its making.
    pub(crate) fn is_lawful(self) -> bool {
        self != Kind::Drawn
    }

    /// Whether it is handed over as bytes.
    fn is_delivered(self) -> bool {
        matches!(self, Kind::Mended | Kind::Drawn)
    }
}

impl fmt::Display for Kind {
    fn fmt<W: fmt::Write>(&self, f: &mut fmt::Formatter<W>) -> fmt::Result {
        f.write_str(match self {
            Kind::Same => "same",
            Kind::Greatest => "greatest",
            Kind::Mended => "delivered, mended",
            Kind::Drawn => "delivered, as drawn",
        })
    }
}

/// What differed from what was expected.
#[derive(Clone, Copy, Debug, Error)]
pub(crate) enum Fault {
    #[error("a plan is not drawn, written or read as it should be")]
    Plan,
    #[error("the verdict is not the checker's")]
    Verdict,
    #[error("the run is not as long as a shortest one")]
    Length,
    #[error("the run is not one that the programme permits and the rule does not")]
    Run,
    #[error("bytes behind the run were changed")]
    Bytes,
    #[error("slots behind the stored ones were changed")]
    Slots,
    #[error("so many items cannot be stored")]
    Stored,
    #[error("full where it may not be")]
    Full,
    #[error("not the answer and the run of fewer slots or of other plans")]
    Changed,
    #[error("the refusal is not the one that is due")]
    Refusal,
    #[error("the order breaks a law")]
    Law,
    #[error("the greatest order is not the one of its definition")]
    Greatest,
    #[error("the file of the plan of one state is another")]
    KnownFile,
}

/// A difference: which seed the plans are from, and the order, the slots and what differed.
#[derive(Clone, Copy)]
pub(crate) struct Difference {
    pub seed: u64,
    pub question: Question,
    pub kind: Kind,
    pub slots: usize,
    pub fault: Fault,
}

impl fmt::Display for Difference {
    fn fmt<W: fmt::Write>(&self, f: &mut fmt::Formatter<W>) -> fmt::Result {
        let Difference {
            seed,
            question,
            kind,
            slots,
            fault,
        } = self;
        write!(
            f,
            "seed {seed}, {question}, order {kind}, {slots} slots: {fault}"
        )
    }
}

/// What has been counted so far, and the differences that are not yet printed.
#[derive(Drop)]
pub(crate) struct Tally {
    pub plans: u64,
    pub trials: u64,
    pub comparisons: Counts,
    pub openings: Counts,
    pub lawful: u64,
    pub broken: Broken,
    pub longest: usize,
    pub differences: Vec<Difference>,
}

impl Tally {
    /// Nothing counted.
    pub(crate) fn new(heap: Global) -> Tally {
        Tally {
            plans: 0,
            trials: 0,
            comparisons: Counts::default(),
            openings: Counts::default(),
            lawful: 0,
            broken: Broken::default(),
            longest: 0,
            differences: Vec::new(heap),
        }
    }

    /// Counts the answer of a call.
    pub(crate) fn count(&mut self, question: Question, answer: Answer) {
        if let Ok(outcome) = answer {
            self.longest = self.longest.max(outcome.length);
        }
        match question {
            Question::Compare => self.comparisons.count(answer),
            Question::Open { .. } => self.openings.count(answer),
        }
    }

    /// Counts a delivered order, with the refusal that is due where it breaks a law.
    pub(crate) fn count_order(&mut self, kind: Kind, laws: Result<(), Refusal>) {
        if kind.is_delivered() {
            match laws {
                Ok(()) => self.lawful = self.lawful.wrapping_add(1),
                Err(due) => self.broken.count(due),
            }
        }
    }

    /// Notes a difference.
    pub(crate) fn note(&mut self, difference: Difference) -> Result<(), AllocError> {
        self.differences.push(difference)?;
        Ok(())
    }

    /// Notes that something is wrong with plans before anything is asked about them.
    pub(crate) fn note_plans(&mut self, seed: u64, fault: Fault) -> Result<(), AllocError> {
        self.note(Difference {
            seed,
            question: Question::Compare,
            kind: Kind::Same,
            slots: 0,
            fault,
        })
    }
}

impl fmt::Display for Tally {
    fn fmt<W: fmt::Write>(&self, f: &mut fmt::Formatter<W>) -> fmt::Result {
        let Tally {
            plans,
            comparisons,
            openings,
            lawful,
            broken,
            longest,
            ..
        } = self;
        writeln!(f, "plans: {plans}, each drawn and read from its file")?;
        writeln!(f, "comparisons: {comparisons}")?;
        writeln!(f, "openings: {openings}")?;
        writeln!(f, "delivered orders: {lawful} lawful, {broken}")?;
        write!(f, "longest run: {longest}")
    }
}
