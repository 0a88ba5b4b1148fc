use plan::interface::Plan;
use plan::refusal::Refusal;
use plan::writer::write;
use std::alloc::{AllocError, Global};
use wording::answer::{Answer, word_answer, word_file};
use wording::notice::{Notice, word_notice};

/// The length of the longest file of a plan: a head, 32 starts, 32 ends and 32 * 26 * 32 arrows.
const LONGEST_FILE: usize = 186_693;

/// Words what a call came to that answers nothing but that it was done.
pub(crate) fn word_outcome(
    out: &mut Vec<u8>,
    outcome: Result<(), Refusal>,
) -> Result<(), AllocError> {
    word_answer(out, outcome.map_or_else(Answer::Refused, |()| Answer::Done))
}

/// Words what a call came to that answers a number.
pub(crate) fn word_number(
    out: &mut Vec<u8>,
    outcome: Result<u8, Refusal>,
) -> Result<(), AllocError> {
    word_answer(out, outcome.map_or_else(Answer::Refused, Answer::Number))
}

/// Words what the question for release came to.
pub(crate) fn word_release(
    out: &mut Vec<u8>,
    outcome: Result<(), Refusal>,
) -> Result<(), AllocError> {
    match outcome {
        Ok(()) => word_notice(out, Notice::Granted),
        Err(refusal) => word_answer(out, Answer::Refused(refusal)),
    }
}

/// Words the plan's file, written into a buffer of so many bytes, or why it was not written. No plan needs a buffer that
/// is longer than the longest file.
pub(crate) fn word_written<P: Plan>(
    heap: Global,
    plan: &P,
    buffer: usize,
    out: &mut Vec<u8>,
) -> Result<(), AllocError> {
    let mut bytes = vec![in heap; 0u8; buffer.min(LONGEST_FILE)]?;
    match write(plan, bytes.as_mut_slice()) {
        Ok(length) => {
            bytes.truncate(length);
            word_file(out, bytes.as_slice())
        }
        Err(refusal) => word_answer(out, Answer::Refused(refusal)),
    }
}
