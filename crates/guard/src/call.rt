use plan::refusal::Refusal;

// Stays: a type beside that of a script's terms: a list holds the order itself, in fixed memory, and a script its name.
/// What a listed search is made with.
#[derive(Clone, Copy, Debug, PartialEq, Eq)]
pub struct SearchTerms {
    /// The order as sixty-four rows, bit `r` of row `p` for the pair `p`, `r`, lawful or not.
    pub order: [u64; 64],
    /// The number of slots.
    pub slots: usize,
    /// The length of the run buffer.
    pub bytes: usize,
}

// Stays: the eight calls by name (docs/DECISIONS.md, "The guard"); a case over `calls::Drawing` would nest names.
/// A call on a guard, as a list of calls holds it.
#[derive(Clone, Copy, Debug, PartialEq, Eq)]
pub enum Call {
    /// A new state of a side.
    State {
        side: u8,
    },
    /// A state of a side is a start.
    Start {
        side: u8,
        state: u8,
    },
    /// A state of a side is an end.
    End {
        side: u8,
        state: u8,
    },
    /// An arrow of a side is drawn.
    Arrow {
        side: u8,
        from: u8,
        command: u8,
        to: u8,
    },
    /// An arrow of a side is lifted.
    Lift {
        side: u8,
        from: u8,
        command: u8,
        to: u8,
    },
    /// The programme is compared with the rule.
    Compare {
        terms: SearchTerms,
    },
    /// Does the rule permit every run of the first `commands` commands?
    Open {
        commands: u8,
        terms: SearchTerms,
    },
    /// The valves are to be released.
    Release,
}

// Stays: a refusal is a case, since each place of a list holds one answer; and what a search found is told by the
// numbers that compare answers, with a run in fixed memory, so that a list needs none from the heap.
/// What is answered to a call.
#[derive(Clone, Copy, Debug, PartialEq, Eq)]
pub enum Answer {
    /// The number of a new state.
    Number(u8),
    /// A start, an end or an arrow was drawn, or an arrow lifted.
    Done,
    /// What a search found: its verdict (0 passed, 1 failed, 2 full), the length of its run, the number of items that it
    /// stored, and the run, with zeros behind it.
    Found {
        verdict: u8,
        length: usize,
        stored: usize,
        run: [u8; 4096],
    },
    /// Release is granted.
    Granted,
    /// The call was refused, and nothing was changed.
    Refused(Refusal),
}
