ghost use Rattle.std.specs.Prelude.{◌≡◌};
ghost use Rattle.walk.specs.Progress.{reached_by};

use crate::slot::{Mark, Slot};

// Stays: a slot has these three as public fields of its own, so it does not hold an origin.
/// How items are reached that are offered together: all of a slot but its item and its mark.
#[derive(Clone, Copy)]
pub(crate) struct Origin {
    pub depth: u16,
    pub parent: u16,
    pub command: u8,
}

impl Origin {
    // Stays: 65535 and 255 are the numbers of a start in the rules (docs/RULES.md), and they are printed with a slot.
    /// How starts are reached: by no command, from no slot.
    pub(crate) const START: Origin = Origin {
        depth: 0,
        parent: 65535,
        command: 255,
    };

    /// The slot of an item that was reached so. It waits.
    pub(crate) fn slot<I>(self, item: I) -> Slot<I>
        ensures { result ≡ reached_by self item }
    {
        Slot {
            item,
            depth: self.depth,
            parent: self.parent,
            command: self.command,
            mark: Mark::Waiting,
        }
    }
}
