// Stays: no plainer: `Option<Verdict>` has the same four cases, and drawn would read `None` in each match.
/// Where a guard stands: by its last accepted drawing or comparison.
#[derive(Clone, Copy, Debug, PartialEq, Eq)]
pub enum Standing {
    /// Something was drawn since the last comparison, or nothing was compared yet.
    Drawn,
    /// The last comparison passed, and nothing was drawn since.
    Passed,
    /// It failed.
    Failed,
    /// It ran out of slots.
    Full,
}
