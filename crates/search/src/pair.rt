/// The item of a comparison: a state of the programme, and a set of states of the rule.
#[derive(Clone, Copy, Debug, Default, PartialEq, Eq, Drop)]
pub struct Pair {
    /// The programme's state.
    pub state: u8,
    /// The rule's states, as a 32-bit set.
    pub states: u32,
}
