ghost use Rattle.std.specs.Prelude.{◌≡◌, Ok, MatchResult};
ghost use Rattle.std.proofs.Math.Option.{none, some};
ghost use Rattle.plan.specs.Tables.{drawn};
ghost use Rattle.plan.specs.Refusals.{report_of};
ghost use Rattle.calls.specs.declared.drawing.Drawing.TheVariants as drawings;
ghost use Rattle.calls.specs.Calls.{Draw};
ghost use Rattle.calls.specs.Plans.{made, against};
ghost use Rattle.calls.specs.Guards.{blank_guard, drawing_answer, step};
ghost use Rattle.calls.specs.Promise.{Promised};
ghost use Rattle.guard.specs.Meanings.{guard_of, as_number, as_done, as_drawn};

use crate::guard::Guard;
use crate::transition::Event;
use calls::drawing::Drawing;
use calls::standing::Standing;
use plan::refusal::Refusal;
use plan::table::Table;

// Stays: one match on the step, since the definitions speak of a drawing as one value; and one number for all steps,
// since an option would be unwrapped where a state is drawn and be empty for the others.
/// Draws one step on a table. Answers a new state's number, and 0 for any other step.
fn draw_on(table: &mut Table, drawing: Drawing) -> Result<u8, Refusal>
    ensures { MatchResult result (λ n. (against drawing (drawn table.old) ≡ none) × (drawn table.new ≡ made drawing (drawn table.old)) × (as_drawn drawing (Ok n) ≡ drawing_answer drawing (drawn table.old))) (λ e. (against drawing (drawn table.old) ≡ some (report_of e)) × (table.new ≡ table.old)) }
{
    match drawing {
        Drawing::State => return table.add_state(),
        Drawing::Start { state } => table.mark_start(state)?,
        Drawing::End { state } => table.mark_end(state)?,
        Drawing::Arrow { from, command, to } => table.draw_arrow(from, command, to)?,
        Drawing::Lift { from, command, to } => table.lift_arrow(from, command, to)?,
    }
    Ok(0)
}

impl Guard {
    /// A blank guard: two plans without states, and nothing compared yet.
    pub fn new() -> Guard
        ensures { guard_of result ≡ blank_guard }
    {
        Guard {
            programme: Table::new(),
            rule: Table::new(),
            standing: Standing::Drawn,
        }
    }

    // Stays: a side is any number that a caller names, and all but 0 and 1 are refused.
    /// Draws one step on a side, and sets the standing to drawn.
    fn draw(&mut self, side: u8, drawing: Drawing) -> Result<u8, Refusal>
        ensures answer { (guard_of self.new, as_drawn drawing result) ≡ step (guard_of self.old) (Draw side drawing) }
        ensures promised { Promised (guard_of self.old) (Draw side drawing) (as_drawn drawing result) (guard_of self.new) }
    {
        let number = match side {
            0 => draw_on(&mut self.programme, drawing)?,
            1 => draw_on(&mut self.rule, drawing)?,
            _ => return Err(Refusal::NoSuchSide),
        };
        self.standing = self.follow(Event::Drawing)?;
        Ok(number)
    }

    /// Adds a state to a side and answers its number. Refused: 1 no such side, 2 where the side has 32 states.
    pub fn state(&mut self, side: u8) -> Result<u8, Refusal>
        ensures answer { (guard_of self.new, as_number result) ≡ step (guard_of self.old) (Draw side drawings.State) }
        ensures promised { Promised (guard_of self.old) (Draw side drawings.State) (as_number result) (guard_of self.new) }
    {
        self.draw(side, Drawing::State)
    }

    /// Marks a state of a side as a start. Refused: 1 no such side, 3 no such state.
    pub fn start(&mut self, side: u8, state: u8) -> Result<(), Refusal>
        ensures answer { (guard_of self.new, as_done result) ≡ step (guard_of self.old) (Draw side (drawings.Start state)) }
        ensures promised { Promised (guard_of self.old) (Draw side (drawings.Start state)) (as_done result) (guard_of self.new) }
    {
        self.draw(side, Drawing::Start { state })?;
        Ok(())
    }

    /// Marks a state of a side as an end. Refused: 1 no such side, 3 no such state.
    pub fn end(&mut self, side: u8, state: u8) -> Result<(), Refusal>
        ensures answer { (guard_of self.new, as_done result) ≡ step (guard_of self.old) (Draw side (drawings.End state)) }
        ensures promised { Promised (guard_of self.old) (Draw side (drawings.End state)) (as_done result) (guard_of self.new) }
    {
        self.draw(side, Drawing::End { state })?;
        Ok(())
    }

    /// Draws an arrow on a side; one that is there already is accepted. Refused: 1 no such side, then 3, 4 and 3 where
    /// the first state, the command or the second state does not exist.
    pub fn arrow(&mut self, side: u8, from: u8, command: u8, to: u8) -> Result<(), Refusal>
        ensures answer { (guard_of self.new, as_done result) ≡ step (guard_of self.old) (Draw side (drawings.Arrow from command to)) }
        ensures promised { Promised (guard_of self.old) (Draw side (drawings.Arrow from command to)) (as_done result) (guard_of self.new) }
    {
        self.draw(side, Drawing::Arrow { from, command, to })?;
        Ok(())
    }

    /// Lifts an arrow of a side; one that is not there is accepted. Refused as drawing it is.
    pub fn lift(&mut self, side: u8, from: u8, command: u8, to: u8) -> Result<(), Refusal>
        ensures answer { (guard_of self.new, as_done result) ≡ step (guard_of self.old) (Draw side (drawings.Lift from command to)) }
        ensures promised { Promised (guard_of self.old) (Draw side (drawings.Lift from command to)) (as_done result) (guard_of self.new) }
    {
        self.draw(side, Drawing::Lift { from, command, to })?;
        Ok(())
    }
}
