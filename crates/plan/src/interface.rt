ghost use Rattle.std.specs.Prelude.{◌≡◌};
ghost use Rattle.automata.specs.Nfa.{Nfa, Proper};

/// A plan: a nondeterministic finite automaton of at most 32 states over the commands 0 to 25, asked by four questions.
///
/// Sets of states are 32-bit sets, bit `s` for state `s`. A state or a command that does not exist has no targets, and
/// a question changes nothing. The ghost member says what the plan means; an implementation shows that this is proper
/// (at most 32 states, sets of existing states only) and that it answers by it.
pub trait Plan {
    ghost meaning: { Self → Nfa };

    /// The count of states: they are numbered from 0.
    fn count(&self) -> u8
        ensures answer { result ≡ (meaning self.now).count }
        ensures proper { Proper (meaning self.now) };

    /// The states from which a run may start.
    fn starts(&self) -> u32
        ensures { result ≡ (meaning self.now).starts };

    /// The states in which a run may end.
    fn ends(&self) -> u32
        ensures { result ≡ (meaning self.now).ends };

    /// The states to which arrows lead from `state` under `command`.
    fn targets(&self, state: u8, command: u8) -> u32
        ensures { result ≡ (meaning self.now).targets state command };
}
