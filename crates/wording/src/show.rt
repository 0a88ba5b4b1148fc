ghost use Rattle.std.specs.Prelude.{◌≡◌, ℕ, ◌<◌, [], ◌∷◌, ◌++◌, map, if◌then◌else◌};
ghost use Rattle.wording.specs.Texts.{Appends, numeral, spaced};
ghost use Rattle.wording.specs.Show.{members, set_text, each, arrows_text, state_text, named_set, head_text, plan_text};

use crate::text::{push_byte, push_number, push_text};
use automata::sets::contains;
use plan::interface::Plan;
use std::alloc::AllocError;

/// Appends the number, behind a space where it is not the first.
fn push_next(out: &mut Vec<u8>, n: usize, first: bool) -> Result<(), AllocError>
    ensures { Appends result out.old.items out.new.items ((if first then [] else 32 ∷ []) ++ numeral n) }
{
    if first {
        return push_number(out, n);
    }
    push_byte(out, b' ')?;
    push_number(out, n)
}

// Stays: no plainer: without the flag the first member is written apart, and its number stands in two places.
/// Appends the members of the set, with single spaces between them.
fn push_members(out: &mut Vec<u8>, set: u32) -> Result<(), AllocError>
    ensures { Appends result out.old.items out.new.items (spaced (map numeral (members 32 set))) }
{
    let mut first = true;
    for k in 0..32u8 {
        if contains(set, k) {
            push_next(out, k as usize, first)?;
            first = false;
        }
    }
    Ok(())
}

/// Appends the set: its members in braces.
fn push_set(out: &mut Vec<u8>, set: u32) -> Result<(), AllocError>
    ensures { Appends result out.old.items out.new.items (set_text set) }
{
    push_text(out, b"{")?;
    push_members(out, set)?;
    push_text(out, b"}")
}

/// Appends the name and the set.
pub(crate) fn push_named_set(out: &mut Vec<u8>, name: &[u8], set: u32) -> Result<(), AllocError>
    ensures { Appends result out.old.items out.new.items (named_set name.now set) }
{
    push_text(out, name)?;
    push_set(out, set)
}

/// Appends the count of states, the starts and the ends.
#[tactic(auto, unfolding(crate::specs::Show::head_text))]
fn push_head(out: &mut Vec<u8>, count: u8, starts: u32, ends: u32) -> Result<(), AllocError>
    ensures { Appends result out.old.items out.new.items (head_text count starts ends) }
{
    push_text(out, b"states ")?;
    push_number(out, count as usize)?;
    push_named_set(out, b", starts ", starts)?;
    push_named_set(out, b", ends ", ends)
}

// Stays: `command < 26`, as in draw.rt.
/// Appends a line with the targets of the state under the command, if there are any.
fn push_arrows(out: &mut Vec<u8>, state: u8, command: u8, targets: u32) -> Result<(), AllocError>
    requires { command < 26 }
    ensures { Appends result out.old.items out.new.items (arrows_text state command targets) }
{
    if targets == 0 {
        return Ok(());
    }
    push_text(out, b"\n  ")?;
    push_number(out, state as usize)?;
    push_text(out, &[b' ', b'a' + command, b' '])?;
    push_set(out, targets)
}

/// Appends the arrows of the state, a line for each command that has any.
#[tactic(auto, unfolding(crate::specs::Show::each))]
fn push_state<P: Plan>(out: &mut Vec<u8>, plan: &P, state: u8) -> Result<(), AllocError>
    ensures { Appends result out.old.items out.new.items (state_text (P.Plan.meaning plan.now) state) }
{
    for command in 0..26 {
        push_arrows(out, state, command, plan.targets(state, command))?;
    }
    Ok(())
}

/// Appends the plan for a person to read: the count of states, the starts and the ends, and then a line for each state
/// and command that has targets.
#[tactic(auto, unfolding(crate::specs::Show::each))]
pub fn show<P: Plan>(out: &mut Vec<u8>, plan: &P) -> Result<(), AllocError>
    ensures { Appends result out.old.items out.new.items (plan_text (P.Plan.meaning plan.now)) }
{
    let count = plan.count();
    push_head(out, count, plan.starts(), plan.ends())?;
    for state in 0..count {
        push_state(out, plan, state)?;
    }
    Ok(())
}
