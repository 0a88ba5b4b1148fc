ghost use Rattle.std.specs.Prelude.{◌≡◌, ◌%◌, ◌^◌};

use crate::both::Both;
use crate::drawing::{Draughtsman, every_run};
use crate::file::{file_of, is_own_file};
use crate::orders::Orders;
use crate::product::shortest_missed;
use crate::question::{Question, Written};
use crate::relation::Relation;
use crate::session::Session;
use crate::sketch::Sketch;
use crate::subject::Subject;
use crate::tally::Fault;
use order::greatest::rank;
use plan::table::Table;
use std::alloc::AllocError;

/// What is drawn from a seed: two plans, as the checker has them and as calls do, some orders, and how many commands the
/// rule is asked to be open for.
#[derive(Drop)]
pub(crate) struct Round {
    pub seed: u64,
    pub plans: Both<Written>,
    pub orders: Orders,
    sketches: Both<Sketch>,
    commands: u8,
}

/// How many sets of states a plan has, of so many states.
fn sets_of(count: u8) -> usize
    ensures { result ≡ 2 ^ (count % 32) }
{
    1 << (count % 32)
}

/// The plan, drawn and written. What is not drawn or written as it should be is noted.
fn write_plan(seed: u64, sketch: &Sketch, session: &mut Session) -> Result<Written, AllocError> {
    let table = match Table::try_from(sketch) {
        Ok(table) => table,
        Err(_) => {
            session.tally.note_plans(seed, Fault::Plan)?;
            Table::new()
        }
    };
    let file = file_of(session.heap, &table)?;
    if !is_own_file(session.heap, file.as_slice())? {
        session.tally.note_plans(seed, Fault::Plan)?;
    }
    session.tally.plans = session.tally.plans.wrapping_add(1);
    Ok(Written { table, file })
}

impl Round {
    /// Draws it.
    fn new(seed: u64, session: &mut Session) -> Result<Round, AllocError> {
        let mut hand = Draughtsman::new(session.heap, seed);
        let sketches = hand.sketches()?;
        let plans = Both {
            programme: write_plan(seed, &sketches.programme, session)?,
            rule: write_plan(seed, &sketches.rule, session)?,
        };
        let greatest = rank(&plans.programme.table, &plans.rule.table);
        let orders = hand.orders(&sketches.as_ref(), greatest)?;
        let commands = hand.some_commands(&sketches.rule);
        Ok(Round {
            seed,
            plans,
            orders,
            sketches,
            commands,
        })
    }

    /// Holds the greatest order against its definition.
    fn hold_greatest(&self, session: &mut Session) -> Result<(), AllocError> {
        if self.sketches.as_ref().greatest() != Relation::of(&self.orders.greatest) {
            session.tally.note_plans(self.seed, Fault::Greatest)?;
        }
        Ok(())
    }

    /// Holds the comparison of the two plans.
    fn hold_compare(&self, session: &mut Session) -> Result<(), AllocError> {
        let sides = self.sketches.as_ref();
        let states = sides.programme.count as usize;
        let subject = Subject {
            round: self,
            question: Question::Compare,
            asked: sides.programme,
            sides,
            missed: shortest_missed(session.heap, sides.programme, sides.rule)?,
            enough: sets_of(sides.rule.count).saturating_mul(states),
        };
        subject.hold(session)
    }

    /// Holds the question whether the rule is open: whether it permits all that one state permits that has every arrow to
    /// itself.
    fn hold_open(&self, session: &mut Session) -> Result<(), AllocError> {
        let commands = self.commands;
        let rule = &self.sketches.rule;
        let asked = every_run(session.heap, commands)?;
        let beside = Sketch::blank(session.heap, 0);
        let sides = Both {
            programme: &beside,
            rule,
        };
        let subject = Subject {
            round: self,
            question: Question::Open { commands },
            asked: &asked,
            sides,
            missed: shortest_missed(session.heap, &asked, rule)?,
            enough: sets_of(rule.count),
        };
        subject.hold(session)
    }
}

/// Draws two plans and some orders from a seed, and holds what is answered about them against the checker.
pub(crate) fn play(seed: u64, session: &mut Session) -> Result<(), AllocError> {
    let round = Round::new(seed, session)?;
    round.hold_greatest(session)?;
    round.hold_compare(session)?;
    round.hold_open(session)
}
