use plan::refusal::Refusal;
use search::pair::Pair;
use std::alloc::{AllocError, Global};
use walk::slot::Slot;
use walk::verdict::Numbers;
use walk::walk::usable;
use wording::answer::{Answer, word_answer};
use wording::notice::{Notice, word_notice};
use wording::slots::word_slots;
use wording::verdict::word_search;

/// What a search comes to: its verdict, the length of its run and the number of its stored items, or its refusal.
pub(crate) type Outcome = Result<Numbers, Refusal>;

/// What the last search stored that was not refused.
#[derive(Drop)]
pub(crate) enum Stored {
    /// The slots of a comparison.
    Pairs(Vec<Slot<Pair>>),
    /// The slots of the question whether a plan is open.
    Sets(Vec<Slot<u32>>),
}

/// A search that was made: what it came to, and the slots and the run buffer as it left them.
#[derive(Drop)]
pub(crate) struct Made<I> {
    pub outcome: Outcome,
    pub slots: Vec<Slot<I>>,
    pub run: Vec<u8>,
}

/// Makes a search with no more slots and bytes than can be used, since more change no answer.
pub(crate) fn make<I: Copy + Default + Drop, F: FnOnce(&mut [Slot<I>], &mut [u8]) -> Outcome>(
    heap: Global,
    slots: usize,
    bytes: usize,
    call: F,
) -> Result<Made<I>, AllocError>
    requires { F.IsAlwaysCallable call }
{
    let mut slots = vec![in heap; Slot::blank(I::default()); usable(slots)]?;
    let mut run = vec![in heap; 0u8; usable(bytes)]?;
    let outcome = call(slots.as_mut_slice(), run.as_mut_slice());
    Ok(Made {
        outcome,
        slots,
        run,
    })
}

impl<I: Drop> Made<I> {
    /// Appends what the search came to, and hands back the slots that it filled unless it was refused.
    pub(crate) fn word(self, out: &mut Vec<u8>) -> Result<Option<Vec<Slot<I>>>, AllocError> {
        let Made {
            outcome,
            mut slots,
            run,
        } = self;
        match outcome {
            Ok(answer) => {
                word_search(out, answer, run.as_slice())?;
                slots.truncate(answer.2);
                Ok(Some(slots))
            }
            Err(refusal) => {
                word_answer(out, Answer::Refused(refusal))?;
                Ok(None)
            }
        }
    }
}

/// Appends the slots of the last search.
pub(crate) fn word_stored(out: &mut Vec<u8>, stored: &Option<Stored>) -> Result<(), AllocError> {
    match stored {
        None => word_notice(out, Notice::NoSearch),
        Some(Stored::Pairs(slots)) => word_slots(out, slots.as_slice()),
        Some(Stored::Sets(slots)) => word_slots(out, slots.as_slice()),
    }
}
