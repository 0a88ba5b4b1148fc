ghost use Rattle.std.specs.Prelude.{◌≡◌, ℕ, List};
ghost use Rattle.wording.specs.Texts.{Appends};
ghost use Rattle.wording.specs.Slots.{mark_text, pair_item, set_item, origin_text, slot_text, slots_text};

use crate::show::push_named_set;
use crate::text::{push_named_number, push_number, push_text};
use search::pair::Pair;
use std::alloc::AllocError;
use walk::slot::{Mark, Slot};

/// What a search stores, in words.
pub trait Item {
    ghost text: { Self → List ℕ };

    /// Appends the item behind a space.
    fn push(&self, out: &mut Vec<u8>) -> Result<(), AllocError>
        ensures { Appends result out.old.items out.new.items (text self.now) };
}

impl Item for Pair {
    ghost text = { pair_item };

    fn push(&self, out: &mut Vec<u8>) -> Result<(), AllocError> {
        push_named_number(out, b" pair ", self.state as usize)?;
        push_named_set(out, b" ", self.states)
    }
}

impl Item for u32 {
    ghost text = { set_item };

    fn push(&self, out: &mut Vec<u8>) -> Result<(), AllocError> {
        push_named_set(out, b" set ", *self)
    }
}

// Stays: no plainer: `write!` on a `Vec<u8>` answers an `io::Error`, and what appends here an `AllocError`.
/// What has become of an item.
fn mark_word(mark: Mark) -> &'static [u8]
    ensures { result.now ≡ mark_text mark }
{
    match mark {
        Mark::Waiting => b" waiting",
        Mark::Taken => b" taken",
        Mark::Withdrawn => b" withdrawn",
    }
}

/// Appends how the slot's item was reached, and what has become of it.
fn push_origin<I>(out: &mut Vec<u8>, slot: &Slot<I>) -> Result<(), AllocError>
    ensures { Appends result out.old.items out.new.items (origin_text slot.now.depth slot.now.parent slot.now.command slot.now.mark) }
{
    push_named_number(out, b" depth ", slot.depth as usize)?;
    push_named_number(out, b" parent ", slot.parent as usize)?;
    push_named_number(out, b" command ", slot.command as usize)?;
    push_text(out, mark_word(slot.mark))
}

/// Appends the slot on a line of its own: its number, its item, and how it was reached.
fn push_slot<I: Item>(out: &mut Vec<u8>, number: usize, slot: &Slot<I>) -> Result<(), AllocError>
    ensures { Appends result out.old.items out.new.items (slot_text I.Item.text number slot.now) }
{
    push_named_number(out, b"\n  ", number)?;
    slot.item.push(out)?;
    push_origin(out, slot)
}

/// Appends how many slots there are, and a line for each, as `1 stored` and the line
/// `  0 pair 0 {1 2} depth 0 parent 65535 command 255 taken` of a comparison, or
/// `  0 set {1 2} depth 0 parent 65535 command 255 waiting` of an opening.
#[tactic(auto, unfolding(crate::specs::Slots::slots_from))]
pub fn word_slots<I: Item>(out: &mut Vec<u8>, slots: &[Slot<I>]) -> Result<(), AllocError>
    ensures { Appends result out.old.items out.new.items (slots_text I.Item.text slots.now) }
{
    push_number(out, slots.len())?;
    push_text(out, b" stored")?;
    for (number, slot) in slots.iter().enumerate() {
        push_slot(out, number, slot)?;
    }
    Ok(())
}
