ghost use Rattle.std.specs.Prelude.{◌≡◌};
ghost use Rattle.walk.specs.Verdicts.{number_of, verdict_of};

// Stays: a triple of numbers is the form in which searches answer (docs/DECISIONS.md, "Forms").
/// What a search answers: the number of its verdict, the length of its run, and the number of stored items.
pub type Numbers = (u8, usize, usize);

/// What a walk comes to.
#[derive(Clone, Copy, Debug, PartialEq, Eq)]
pub enum Verdict {
    /// No start misses any run.
    Passed,
    /// A start misses a run.
    Failed,
    /// The slots did not suffice.
    Full,
}

/// The number that tells a verdict.
impl From<Verdict> for u8 {
    ghost from_gives = { λ verdict number. number ≡ number_of verdict };

    fn from(verdict: Verdict) -> u8 {
        match verdict {
            Verdict::Passed => 0,
            Verdict::Failed => 1,
            Verdict::Full => 2,
        }
    }
}

/// The verdict that a number tells: full for any but 0 and 1.
impl From<u8> for Verdict {
    ghost from_gives = { λ number verdict. verdict ≡ verdict_of number };

    fn from(number: u8) -> Verdict {
        match number {
            0 => Verdict::Passed,
            1 => Verdict::Failed,
            _ => Verdict::Full,
        }
    }
}
