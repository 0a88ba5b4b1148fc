use plan::refusal::Refusal;
use walk::verdict::Numbers;

/// A verdict, told from its number.
#[derive(Clone, Copy, PartialEq, Eq)]
pub(crate) enum Verdict {
    /// 0.
    Passed,
    /// 1.
    Failed,
    /// 2.
    Full,
    /// No number of a verdict.
    Unknown,
}

// Stays: the walk's own `Verdict` takes any other number for full, which would hide a wrong one.
impl From<u8> for Verdict {
    fn from(number: u8) -> Verdict {
        match number {
            0 => Verdict::Passed,
            1 => Verdict::Failed,
            2 => Verdict::Full,
            _ => Verdict::Unknown,
        }
    }
}

/// What was found: the verdict, the length of the run, and the number of stored items.
#[derive(Clone, Copy, PartialEq, Eq)]
pub(crate) struct Outcome {
    pub verdict: Verdict,
    pub length: usize,
    pub stored: usize,
}

impl From<Numbers> for Outcome {
    fn from((number, length, stored): Numbers) -> Outcome {
        Outcome {
            verdict: Verdict::from(number),
            length,
            stored,
        }
    }
}

/// What a question is answered with: what was found, or why it was refused.
pub(crate) type Answer = Result<Outcome, Refusal>;
