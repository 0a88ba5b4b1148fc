ghost use Rattle.std.specs.Prelude.{◌≡◌};
ghost use Rattle.plan.specs.Refusals.{values_of};
ghost use Rattle.wording.specs.Texts.{Appends};
ghost use Rattle.wording.specs.Answers.{values_text, reason_text, refusal_text, file_text, answer_text};

use crate::hex::encode;
use crate::names::push_names;
use crate::text::{push_byte, push_number, push_text};
use plan::refusal::Refusal;
use std::alloc::AllocError;

/// What is answered to a statement, but for the bytes of a file and a plan that is shown.
#[derive(Clone, Copy, Debug, PartialEq, Eq)]
pub enum Answer {
    /// It was done.
    Done,
    /// A number, as that of a new state.
    Number(u8),
    /// It was refused, and nothing was changed.
    Refused(Refusal),
    /// The line is no statement.
    Malformed,
    /// No plan has the name.
    UnknownPlan,
}

/// Appends the reason of the refusal, in parentheses.
fn push_reason(out: &mut Vec<u8>, refusal: &Refusal) -> Result<(), AllocError>
    ensures { Appends result out.old.items out.new.items (reason_text refusal.now) }
{
    push_text(out, b" (")?;
    push_names(out, refusal)?;
    push_text(out, refusal.reason().as_bytes())?;
    push_text(out, b")")
}

/// Appends the values of the refusal, each behind a space.
fn push_refused_values(out: &mut Vec<u8>, refusal: &Refusal) -> Result<(), AllocError>
    ensures { Appends result out.old.items out.new.items (values_text (values_of refusal.now)) }
{
    for value in refusal.values().as_slice() {
        push_byte(out, b' ')?;
        push_number(out, *value)?;
    }
    Ok(())
}

/// Appends the refusal: its number, its values, and its reason in parentheses.
#[tactic(auto, unfolding(crate::specs::Answers::refusal_text))]
fn push_refusal(out: &mut Vec<u8>, refusal: &Refusal) -> Result<(), AllocError>
    ensures { Appends result out.old.items out.new.items (refusal_text refusal.now) }
{
    push_text(out, b"refused ")?;
    push_number(out, refusal.number() as usize)?;
    push_refused_values(out, refusal)?;
    push_reason(out, refusal)
}

/// Appends the bytes of a file in hexadecimal, and `-` where there are none.
pub fn word_file(out: &mut Vec<u8>, bytes: &[u8]) -> Result<(), AllocError>
    ensures { Appends result out.old.items out.new.items (file_text bytes.now) }
{
    if bytes.is_empty() {
        push_text(out, b"-")
    } else {
        encode(out, bytes)
    }
}

/// Appends the answer in words.
pub fn word_answer(out: &mut Vec<u8>, answer: Answer) -> Result<(), AllocError>
    ensures { Appends result out.old.items out.new.items (answer_text answer) }
{
    match answer {
        Answer::Done => push_text(out, b"ok"),
        Answer::Number(n) => push_number(out, n as usize),
        Answer::Refused(refusal) => push_refusal(out, &refusal),
        Answer::Malformed => push_text(out, b"malformed"),
        Answer::UnknownPlan => push_text(out, b"unknown plan"),
    }
}
