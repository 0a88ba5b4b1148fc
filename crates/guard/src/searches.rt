ghost use Rattle.std.specs.Prelude.{◌≡◌, length};
ghost use Rattle.automata.specs.Greatest.{Greatest};
ghost use Rattle.automata.specs.Laws.{Lawful};
ghost use Rattle.order.specs.Orders.{rowed};
ghost use Rattle.plan.specs.Tables.{drawn};
ghost use Rattle.search.specs.Answering.{ComparePromise, OpenPromise};
ghost use Rattle.calls.specs.Calls as calls;
ghost use Rattle.calls.specs.Guards.{step};
ghost use Rattle.calls.specs.Promise.{Promised};
ghost use Rattle.guard.specs.Meanings.{guard_of, as_found, as_granted};

use crate::guard::Guard;
use crate::transition::Event;
use order::greatest;
use order::interface::Order;
use plan::refusal::Refusal;
use search::pair::Pair;
use walk::slot::Slot;
use walk::verdict::{Numbers, Verdict};

impl Guard {
    /// Compares the programme with the rule, and sets the standing to the verdict.
    ///
    /// Answers verdict (0 passed, 1 failed, 2 full), length of the run and number of stored items, with the run at the
    /// front of the buffer. Refused, with nothing changed: 5 where the run buffer is shorter than the usable slots, 6 to
    /// 9 where the order breaks a law.
    pub fn compare<O: Order>(
        &mut self,
        order: &O,
        slots: &mut [Slot<Pair>],
        run: &mut [u8],
    ) -> Result<Numbers, Refusal>
        ensures answer { (guard_of self.new, as_found result run.new) ≡ step (guard_of self.old) (calls.Search calls.Compare (O.Order.below order.now) (length slots.old) (length run.old)) }
        ensures search { ComparePromise (drawn self.old.programme) (drawn self.old.rule) (O.Order.below order.now) result slots.old slots.new run.old run.new }
        ensures promised { Promised (guard_of self.old) (calls.Search calls.Compare (O.Order.below order.now) (length slots.old) (length run.old)) (as_found result run.new) (guard_of self.new) }
    {
        let answer = search::compare::compare(&self.programme, &self.rule, order, slots, run)?;
        let verdict = Verdict::from(answer.0);
        self.standing = self.follow(Event::Compare(verdict))?;
        Ok(answer)
    }

    /// Asks whether the rule permits every run of the first `commands` commands. The guard stays as it is.
    ///
    /// Answers as `compare` does. Refused, with nothing changed: 10 where the number of commands is not 1 to 26, then 5
    /// and 6 to 9 as `compare`, the order being tested as beside an empty programme.
    pub fn open<O: Order>(
        &self,
        commands: u8,
        order: &O,
        slots: &mut [Slot<u32>],
        run: &mut [u8],
    ) -> Result<Numbers, Refusal>
        ensures answer { (guard_of self.now, as_found result run.new) ≡ step (guard_of self.now) (calls.Search (calls.Open commands) (O.Order.below order.now) (length slots.old) (length run.old)) }
        ensures search { OpenPromise (drawn self.now.rule) commands (O.Order.below order.now) result slots.old slots.new run.old run.new }
        ensures promised { Promised (guard_of self.now) (calls.Search (calls.Open commands) (O.Order.below order.now) (length slots.old) (length run.old)) (as_found result run.new) (guard_of self.now) }
    {
        search::open::open(&self.rule, commands, order, slots, run)
    }

    /// The greatest order of the two sides as they stand, as sixty-four rows. The guard stays as it is.
    pub fn rank(&self) -> [u64; 64]
        ensures greatest { Greatest (drawn self.now.programme) (drawn self.now.rule) (rowed result) }
        ensures lawful { Lawful (drawn self.now.programme) (drawn self.now.rule) (rowed result) }
    {
        greatest::rank(&self.programme, &self.rule)
    }

    /// Grants the release of the valves where the last comparison passed and nothing was drawn since. Refused: 11 where
    /// nothing was compared since the last drawing, 12 where the last comparison failed, 13 where it was full. The guard
    /// stays as it is.
    pub fn release(&self) -> Result<(), Refusal>
        ensures answer { (guard_of self.now, as_granted result) ≡ step (guard_of self.now) calls.Release }
        ensures promised { Promised (guard_of self.now) calls.Release (as_granted result) (guard_of self.now) }
    {
        self.follow(Event::Release)?;
        Ok(())
    }
}
