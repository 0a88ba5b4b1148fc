ghost use Rattle.std.specs.Prelude.{◌≡◌, ◌≤◌, ◌++◌, length, drop};
ghost use Rattle.walk.specs.Slots.{parent_of, command_of};
ghost use Rattle.walk.specs.Runs.{run_of};

use crate::origin::Origin;
use crate::slot::Slot;

/// The parent and the command of a stored slot, or those of a start where there is none.
fn above<I: Copy + Drop>(stored: &[Slot<I>], at: u16) -> (u16, u8)
    ensures parent { result.0 ≡ parent_of stored.now at }
    ensures command { result.1 ≡ command_of stored.now at }
{
    match stored.get(at as usize) {
        Some(slot) => (slot.parent, slot.command),
        None => (Origin::START.parent, Origin::START.command),
    }
}

/// Writes the run by which the hit was reached, and answers its length.
pub(crate) fn trace<I: Copy + Drop>(stored: &[Slot<I>], hit: &Slot<I>, run: &mut [u8]) -> usize
    requires { hit.now.depth ≤ length run.old }
    ensures long { result ≡ hit.now.depth }
    ensures written { run.new ≡ run_of stored.now hit.now ++ drop hit.now.depth run.old }
{
    let long = hit.depth as usize;
    let mut parent = hit.parent;
    let mut command = hit.command;
    // Stays: over run[..long].iter_mut().rev() a proof learns no element of the run (goal returns-clause-written).
    for place in (0..long).rev() {
        run[place] = command;
        (parent, command) = above(stored, parent);
    }
    long
}
