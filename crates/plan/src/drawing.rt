ghost use Rattle.std.specs.Prelude.{◌≡◌, ℕ, ◌+◌, ◌*◌, ◌<◌, ◌≤◌, List, length, MatchResult, slice_index};
ghost use Rattle.std.proofs.Math.Option.{none, some as just};
ghost use Rattle.automata.specs.Drawing.{blank, with_state, with_start, with_end, with_arrow, without_arrow, no_room, no_state, no_arrow};
ghost use Rattle.automata.specs.Runs.{Permits, Included};
ghost use Rattle.plan.specs.Tables.{drawn};
ghost use Rattle.plan.specs.Refusals.{report_of};

use crate::refusal::Refusal;
use crate::table::Table;
use automata::sets;

// Stays: five `answer` clauses of one shape, since each names its own step, which is what a reader looks up.
impl Table {
    /// A plan without states. It permits no run.
    pub fn new() -> Table
        ensures meaning { drawn result ≡ blank }
        ensures no_runs { (w : List ℕ) → Permits (drawn result) w → ⊥ }
    {
        Table {
            count: 0,
            starts: 0,
            ends: 0,
            arrows: [0; 832],
        }
    }

    /// Adds a state and answers its number. Refused (2) where there are 32 already.
    ///
    /// The new state has no arrows and is neither a start nor an end, so the plan permits the same runs as before.
    pub fn add_state(&mut self) -> Result<u8, Refusal>
        ensures answer { MatchResult result (λ n. (no_room (drawn self.old) ≡ none) × (n ≡ (drawn self.old).count) × (drawn self.new ≡ with_state (drawn self.old))) (λ e. (no_room (drawn self.old) ≡ just (report_of e)) × (self.new ≡ self.old)) }
        ensures same_runs { (Included (drawn self.old) (drawn self.new)) × (Included (drawn self.new) (drawn self.old)) }
    {
        let state = self.count;
        if state >= 32 {
            return Err(Refusal::SideFull);
        }
        self.count = state + 1;
        Ok(state)
    }

    /// Checks that there is such a state. Refused (3) where there is none.
    fn existing(&self, state: u8) -> Result<(), Refusal>
        ensures { MatchResult result (λ _. (no_state (drawn self.now) state ≡ none) × (state < self.now.count)) (λ e. no_state (drawn self.now) state ≡ just (report_of e)) }
    {
        if state < self.count {
            Ok(())
        } else {
            Err(Refusal::NoSuchState)
        }
    }

    /// Marks a state as a start. Refused (3) where there is no such state.
    pub fn mark_start(&mut self, state: u8) -> Result<(), Refusal>
        ensures answer { MatchResult result (λ _. (no_state (drawn self.old) state ≡ none) × (drawn self.new ≡ with_start state (drawn self.old))) (λ e. (no_state (drawn self.old) state ≡ just (report_of e)) × (self.new ≡ self.old)) }
        ensures no_run_lost { Included (drawn self.old) (drawn self.new) }
    {
        self.existing(state)?;
        self.starts = sets::with(self.starts, state);
        Ok(())
    }

    /// Marks a state as an end. Refused (3) where there is no such state.
    pub fn mark_end(&mut self, state: u8) -> Result<(), Refusal>
        ensures answer { MatchResult result (λ _. (no_state (drawn self.old) state ≡ none) × (drawn self.new ≡ with_end state (drawn self.old))) (λ e. (no_state (drawn self.old) state ≡ just (report_of e)) × (self.new ≡ self.old)) }
        ensures no_run_lost { Included (drawn self.old) (drawn self.new) }
    {
        self.existing(state)?;
        self.ends = sets::with(self.ends, state);
        Ok(())
    }

    /// Where the targets of `from` under `command` stand, once all three arguments name what exists.
    fn place(&self, from: u8, command: u8, to: u8) -> Result<usize, Refusal>
        ensures { MatchResult result (λ k. (no_arrow (drawn self.now) from command to ≡ none) × (from < self.now.count) × (command < 26) × (to < self.now.count) × (k ≡ from * 26 + command)) (λ e. no_arrow (drawn self.now) from command to ≡ just (report_of e)) }
    {
        self.existing(from)?;
        if command >= 26 {
            return Err(Refusal::NoSuchCommand);
        }
        self.existing(to)?;
        Ok(from as usize * 26 + command as usize)
    }

    /// Draws an arrow; one that is there already is accepted. Refused (3, 4, 3) where the first state, the command or
    /// the second state does not exist, checked in that order.
    pub fn draw_arrow(&mut self, from: u8, command: u8, to: u8) -> Result<(), Refusal>
        ensures answer { MatchResult result (λ _. (no_arrow (drawn self.old) from command to ≡ none) × (drawn self.new ≡ with_arrow from command to (drawn self.old))) (λ e. (no_arrow (drawn self.old) from command to ≡ just (report_of e)) × (self.new ≡ self.old)) }
        ensures no_run_lost { Included (drawn self.old) (drawn self.new) }
    {
        let place = self.place(from, command, to)?;
        self.arrows[place] = sets::with(self.arrows[place], to);
        Ok(())
    }

    /// Lifts an arrow; one that is not there is accepted. Refused as drawing it is.
    pub fn lift_arrow(&mut self, from: u8, command: u8, to: u8) -> Result<(), Refusal>
        ensures answer { MatchResult result (λ _. (no_arrow (drawn self.old) from command to ≡ none) × (drawn self.new ≡ without_arrow from command to (drawn self.old))) (λ e. (no_arrow (drawn self.old) from command to ≡ just (report_of e)) × (self.new ≡ self.old)) }
        ensures no_run_gained { Included (drawn self.new) (drawn self.old) }
    {
        let place = self.place(from, command, to)?;
        self.arrows[place] = sets::without(self.arrows[place], to);
        Ok(())
    }
}
