use crate::answer::{Answer, Outcome};
use crate::both::Both;
use crate::question::{Form, Question, Written};
use crate::tally::Fault;
use order::interface::Order;
use search::compare::compare;
use search::open::open;
use search::pair::Pair;
use std::alloc::{AllocError, Global};
use walk::slot::Slot;

/// What a buffer is filled with before a call, the run's and a file's: no command.
pub(crate) const FILL: u8 = 0xee;

/// The depth of a slot that no call has filled.
const UNUSED: u16 = 0x7777;

/// How many slots at the front are cleared before a call and looked at after it.
const WATCHED: usize = 64;

/// A call: the question, how many slots and bytes it is handed, and in which forms the plans are.
#[derive(Clone, Copy)]
pub(crate) struct Call {
    pub question: Question,
    pub slots: usize,
    pub bytes: usize,
    pub forms: Both<Form>,
}

/// The slots of one kind that calls work with.
#[derive(Drop)]
struct Store<I> {
    slots: Vec<Slot<I>>,
}

impl<I: Copy + Drop> Store<I> {
    /// So many slots, each of which would hold the item.
    fn new(heap: Global, count: usize, item: I) -> Result<Store<I>, AllocError> {
        let unused = Slot {
            depth: UNUSED,
            ..Slot::blank(item)
        };
        Ok(Store {
            slots: vec![in heap; unused; count]?,
        })
    }

    /// The first slots, with the watched ones cleared.
    fn hand_out(&mut self, count: usize) -> &mut [Slot<I>] {
        let end = count.min(self.slots.len());
        let slots = &mut self.slots.as_mut_slice()[..end];
        for slot in slots.iter_mut().take(WATCHED) {
            slot.depth = UNUSED;
        }
        slots
    }

    /// Whether the watched ones of the first slots are as they were handed out, but for those that were filled.
    fn is_kept(&self, count: usize, filled: usize) -> bool {
        self.slots
            .iter()
            .take(count.min(WATCHED))
            .skip(filled)
            .all(|slot| slot.depth == UNUSED)
    }
}

/// The slots and the run buffer that calls work with.
#[derive(Drop)]
pub(crate) struct Bench {
    pairs: Store<Pair>,
    sets: Store<u32>,
    run: Vec<u8>,
}

impl Bench {
    /// So many slots of each kind, and as many bytes.
    pub(crate) fn new(heap: Global, slots: usize) -> Result<Bench, AllocError> {
        Ok(Bench {
            pairs: Store::new(heap, slots, Pair::default())?,
            sets: Store::new(heap, slots, 0)?,
            run: vec![in heap; FILL; slots]?,
        })
    }

    /// Asks a question with so many of the slots and bytes.
    pub(crate) fn ask<O: Order>(&mut self, plans: &Both<Written>, order: &O, call: Call) -> Answer {
        let end = call.bytes.min(self.run.len());
        let run = &mut self.run.as_mut_slice()[..end];
        run.fill(FILL);
        let rule = plans.rule.plan(call.forms.rule)?;
        let found = match call.question {
            Question::Compare => {
                let programme = plans.programme.plan(call.forms.programme)?;
                compare(
                    &programme,
                    &rule,
                    order,
                    self.pairs.hand_out(call.slots),
                    run,
                )?
            }
            Question::Open { commands } => {
                open(&rule, commands, order, self.sets.hand_out(call.slots), run)?
            }
        };
        Ok(Outcome::from(found))
    }

    /// The run that the last call left in the buffer.
    pub(crate) fn run(&self, answer: Answer) -> &[u8] {
        let length = answer.map_or(0, |outcome| outcome.length);
        let end = length.min(self.run.len());
        &self.run.as_slice()[..end]
    }

    /// Whether the last call left all bytes behind the run, and the watched slots behind the stored ones, as they were.
    pub(crate) fn check_kept(&self, call: Call, answer: Answer) -> Result<(), Fault> {
        let (length, stored) = answer.map_or((0, 0), |outcome| (outcome.length, outcome.stored));
        let mut behind = self.run.iter().take(call.bytes).skip(length);
        if !behind.all(|byte| *byte == FILL) {
            return Err(Fault::Bytes);
        }
        let is_kept = match call.question {
            Question::Compare => self.pairs.is_kept(call.slots, stored),
            Question::Open { .. } => self.sets.is_kept(call.slots, stored),
        };
        if is_kept { Ok(()) } else { Err(Fault::Slots) }
    }
}
