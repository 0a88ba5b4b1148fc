ghost use Rattle.std.specs.Prelude.{◌≡◌};
ghost use Rattle.walk.specs.Slots.{fresh};

/// What has become of a stored item.
#[derive(Clone, Copy, Debug, PartialEq, Eq, Drop)]
pub enum Mark {
    /// Its successors are still to be offered.
    Waiting,
    /// Its successors have been offered, or are being offered.
    Taken,
    /// A newer item of the same depth covers it; it stays counted and is never used again.
    Withdrawn,
}

/// An item that the walk has stored, and how it was reached.
///
/// A start has depth 0, parent 65535 and command 255. Any other item is a successor, under `command`, of the item in
/// slot `parent`, and one deeper.
#[derive(Clone, Copy, Debug, PartialEq, Eq)]
pub struct Slot<I> {
    /// What is stored.
    pub item: I,
    /// How many commands lead to it.
    pub depth: u16,
    /// The number of the slot whose item it is a successor of.
    pub parent: u16,
    /// The command under which it is one.
    pub command: u8,
    /// What has become of it.
    pub mark: Mark,
}

impl<I> Slot<I> {
    /// A slot not used yet, as one that waits at depth 0, with parent 0 and command 0.
    pub fn blank(item: I) -> Slot<I>
        ensures { result ≡ fresh 0 0 0 item }
    {
        Slot {
            item,
            depth: 0,
            parent: 0,
            command: 0,
            mark: Mark::Waiting,
        }
    }
}
