/// One step of drawing a plan.
#[derive(Clone, Copy, Debug, PartialEq, Eq)]
pub enum Drawing {
    /// A new state.
    State,
    /// The state is a start.
    Start { state: u8 },
    /// The state is an end.
    End { state: u8 },
    /// An arrow more.
    Arrow { from: u8, command: u8, to: u8 },
    /// An arrow less.
    Lift { from: u8, command: u8, to: u8 },
}
