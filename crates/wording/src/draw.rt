ghost use Rattle.std.specs.Prelude.{◌≡◌, ◌<◌};
ghost use Rattle.wording.specs.Texts.{Appends};
ghost use Rattle.wording.specs.Draw.{shape_text, node_text, start_text, arrow_text, targets_text, arrows_text, state_text, graph_text};

use crate::text::{push_named_number, push_text};
use automata::sets::contains;
use plan::interface::Plan;
use std::alloc::AllocError;

// Stays: no plainer: `write!` on a `Vec<u8>` answers an `io::Error`, and what appends here an `AllocError`.
/// The shape of an end, and of any other state.
fn shape(end: bool) -> &'static [u8]
    ensures { result.now ≡ shape_text end }
{
    if end {
        b" [shape=doublecircle];"
    } else {
        b" [shape=circle];"
    }
}

/// Appends the state as a node.
fn push_node(out: &mut Vec<u8>, state: u8, end: bool) -> Result<(), AllocError>
    ensures { Appends result out.old.items out.new.items (node_text end state) }
{
    push_named_number(out, b"\n  ", state as usize)?;
    push_text(out, shape(end))
}

/// Appends an arrow to the state from a point that is not seen, if it is a start.
fn push_start(out: &mut Vec<u8>, state: u8, start: bool) -> Result<(), AllocError>
    ensures { Appends result out.old.items out.new.items (start_text start state) }
{
    if !start {
        return Ok(());
    }
    push_named_number(out, b"\n  from", state as usize)?;
    push_named_number(out, b" [shape=point, style=invis]; from", state as usize)?;
    push_named_number(out, b" -> ", state as usize)?;
    push_text(out, b";")
}

// Stays: `command < 26` in two contracts here and one in show.rt. Plans take and answer a command as a `u8`, as `targets`
// does, so a type of its own would be made from one and turned back to it at each call.
/// Appends the arrow with the letter of its command, if it is there.
fn push_arrow(
    out: &mut Vec<u8>,
    from: u8,
    command: u8,
    to: u8,
    there: bool,
) -> Result<(), AllocError>
    requires { command < 26 }
    ensures { Appends result out.old.items out.new.items (arrow_text there from command to) }
{
    if !there {
        return Ok(());
    }
    push_named_number(out, b"\n  ", from as usize)?;
    push_named_number(out, b" -> ", to as usize)?;
    push_text(out, b" [label=")?;
    push_text(out, &[b'a' + command, b']', b';'])
}

/// Appends the arrows from the state under the command to the targets.
#[tactic(auto, unfolding(crate::specs::Show::each))]
fn push_targets(out: &mut Vec<u8>, from: u8, command: u8, targets: u32) -> Result<(), AllocError>
    requires { command < 26 }
    ensures { Appends result out.old.items out.new.items (targets_text from command targets) }
{
    for to in 0..32u8 {
        push_arrow(out, from, command, to, contains(targets, to))?;
    }
    Ok(())
}

/// Appends the arrows from the state.
fn push_arrows<P: Plan>(out: &mut Vec<u8>, plan: &P, state: u8) -> Result<(), AllocError>
    ensures { Appends result out.old.items out.new.items (arrows_text (P.Plan.meaning plan.now) state) }
{
    for command in 0..26 {
        push_targets(out, state, command, plan.targets(state, command))?;
    }
    Ok(())
}

/// Appends the state, whether it is a start, and the arrows from it.
#[tactic(auto, unfolding(crate::specs::Draw::state_text))]
fn push_state<P: Plan>(out: &mut Vec<u8>, plan: &P, state: u8) -> Result<(), AllocError>
    ensures { Appends result out.old.items out.new.items (state_text (P.Plan.meaning plan.now) state) }
{
    push_node(out, state, contains(plan.ends(), state))?;
    push_start(out, state, contains(plan.starts(), state))?;
    push_arrows(out, plan, state)
}

/// Appends the plan in the language of Graphviz, for a picture: a circle for each state, a double one for an end, an arrow
/// from nowhere to each start, and an arrow with its letter for each of the plan's.
#[tactic(auto, unfolding(crate::specs::Show::each))]
pub fn draw<P: Plan>(out: &mut Vec<u8>, plan: &P) -> Result<(), AllocError>
    ensures { Appends result out.old.items out.new.items (graph_text (P.Plan.meaning plan.now)) }
{
    push_text(out, b"digraph plan {\n  rankdir=LR;")?;
    for state in 0..plan.count() {
        push_state(out, plan, state)?;
    }
    push_text(out, b"\n}")
}
