ghost use Rattle.std.specs.Prelude.{◌++◌, codes};
ghost use Rattle.plan.specs.Refusals.{number_of, values_of};
ghost use Rattle.wording.specs.Texts.{Appends};
ghost use Rattle.wording.specs.Names.{state_name, command_name, names_text};

use crate::text::{push_byte, push_number, push_text};
use plan::refusal::Refusal;
use std::alloc::AllocError;

/// Appends a state by its number in a comparison.
fn push_state_name(out: &mut Vec<u8>, n: usize) -> Result<(), AllocError>
    ensures { Appends result out.old.items out.new.items (state_name n) }
{
    if n < 32 {
        push_text(out, b"programme state ")?;
        return push_number(out, n);
    }
    push_text(out, b"rule state ")?;
    push_number(out, n - 32)
}

/// Appends a command by its letter.
fn push_command_name(out: &mut Vec<u8>, c: u8) -> Result<(), AllocError>
    ensures { Appends result out.old.items out.new.items (command_name c) }
{
    push_text(out, b"command ")?;
    if c < 26 {
        return push_byte(out, b'a' + c);
    }
    push_number(out, c as usize)
}

/// Appends a state, and what stands behind it: a comma where others follow, and a colon behind the last.
fn push_state(out: &mut Vec<u8>, n: u8, behind: &[u8]) -> Result<(), AllocError>
    ensures { Appends result out.old.items out.new.items (state_name n ++ behind.now) }
{
    push_state_name(out, n as usize)?;
    push_text(out, behind)
}

/// Appends a command: a comma stands behind it.
fn push_command(out: &mut Vec<u8>, c: u8) -> Result<(), AllocError>
    ensures { Appends result out.old.items out.new.items (command_name c ++ codes ", ") }
{
    push_command_name(out, c)?;
    push_text(out, b", ")
}

/// Appends the states and the command that a refusal of an order brings, and nothing for any other refusal.
pub(crate) fn push_names(out: &mut Vec<u8>, refusal: &Refusal) -> Result<(), AllocError>
    ensures { Appends result out.old.items out.new.items (names_text (number_of refusal.now) (values_of refusal.now)) }
{
    match *refusal {
        Refusal::NotReflexive { p } => push_state(out, p, b": "),
        Refusal::NotTransitive { p, q, r } => {
            push_state(out, p, b", ")?;
            push_state(out, q, b", ")?;
            push_state(out, r, b": ")
        }
        Refusal::EndNotKept { p, r } => {
            push_state(out, p, b", ")?;
            push_state(out, r, b": ")
        }
        Refusal::ArrowNotMatched {
            p,
            r,
            command,
            target,
        } => {
            push_state(out, p, b", ")?;
            push_state(out, r, b", ")?;
            push_command(out, command)?;
            push_state(out, target, b": ")
        }
        _ => Ok(()),
    }
}
