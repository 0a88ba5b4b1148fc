ghost use Rattle.std.specs.Prelude.{◌≡◌, ◌+◌, ◌<◌, ◌≤◌, length, take, slice_set};

use crate::slot::Slot;

// Stays: the slots are lent by the caller, so no `Vec` holds them.
/// The usable slots of a walk, of which the first `count` are filled.
#[derive(Drop)]
pub(crate) struct Stored<'s, I> {
    pub slots: &'s mut [Slot<I>],
    pub count: usize,
    ghost within: { count ≤ length slots.now },
}

impl<'s, I: Copy + Drop> Stored<'s, I> {
    /// These slots, of which none is filled yet.
    pub(crate) fn new(slots: &'s mut [Slot<I>]) -> Stored<'s, I>
        ensures slots { result.slots.now ≡ slots.old }
        ensures lent { result.slots.ghost_name ≡ slots.entry.ghost_name }
        ensures none { result.count ≡ 0 }
    {
        Stored { slots, count: 0 }
    }

    /// The slots that are filled.
    pub(crate) fn filled(&self) -> &[Slot<I>]
        ensures { result.now ≡ take self.now.count self.now.slots.now }
    {
        &self.slots[..self.count]
    }

    /// Fills the next slot.
    pub(crate) fn push(&mut self, new: Slot<I>)
        requires { self.old.count < length self.old.slots.now }
        ensures slots { self.new.slots.now ≡ slice_set self.old.slots.now self.old.count new }
        ensures lent { self.new.slots.ghost_name ≡ self.old.slots.ghost_name }
        ensures count { self.new.count ≡ self.old.count + 1 }
    {
        self.slots[self.count] = new;
        self.count += 1;
    }
}
