ghost use Rattle.std.specs.Prelude.{◌≡◌, ◌<◌, ◌||◌, map, length};
ghost use Rattle.walk.specs.Fans.{has as has_head, fan};
ghost use Rattle.walk.specs.Walks.{fails as fails_of, covered as covered_of, yields as yields_of, withdraw as withdraw_of, offer as offer_of, offers as offers_of, children};
ghost use Rattle.walk.specs.Progress.{reached_by, filled, Reaches};

use crate::origin::Origin;
use crate::search::Search;
use crate::slot::{Mark, Slot};
use crate::stored::Stored;

/// How an offer ends the walk; failed comes with the slot that the hit would have filled.
#[derive(Clone, Copy)]
pub(crate) enum Ending<I> {
    Failed(Slot<I>),
    Full,
}

/// Whether the offer of this slot ends the walk with failed. A start is tested as any other item is.
#[tactic(auto, unfolding(crate::specs::Walks::fails))]
fn fails<S: Search>(search: &S, new: &Slot<S::Item>) -> bool
    ensures { let s = search.now in result ≡ fails_of (S.Search.kind s) new.now }
{
    search.hit(new.item)
}

/// Whether some stored item that is not withdrawn covers `item`.
fn covered<S: Search>(search: &S, stored: &[Slot<S::Item>], item: S::Item) -> bool
    ensures { let s = search.now in result ≡ covered_of (S.Search.kind s) stored.now item }
{
    stored.iter().any(|slot| slot.mark != Mark::Withdrawn && search.covers(slot.item, item))
}

/// Whether an item that is no hit is dropped: it is hopeless, or a stored item covers it.
fn dropped<S: Search>(search: &S, stored: &[Slot<S::Item>], item: S::Item) -> bool
    ensures { let s = search.now in result ≡ ((S.Search.kind s).hopeless item || covered_of (S.Search.kind s) stored.now item) }
{
    search.hopeless(item) || covered(search, stored, item)
}

/// Whether a new slot withdraws this one: it waits, at the same depth, and the new item covers its item.
fn yields<S: Search>(search: &S, slot: &Slot<S::Item>, new: &Slot<S::Item>) -> bool
    ensures { let s = search.now in result ≡ yields_of (S.Search.kind s) new.now slot.now }
{
    slot.mark == Mark::Waiting && slot.depth == new.depth && search.covers(new.item, slot.item)
}

/// Withdraws each stored slot that yields to the new one.
fn withdraw<S: Search>(search: &S, stored: &mut [Slot<S::Item>], new: &Slot<S::Item>)
    ensures { let s = search.now in stored.new ≡ map (withdraw_of (S.Search.kind s) new.now) stored.old }
{
    for slot in stored.iter_mut() {
        if yields(search, slot, new) {
            slot.mark = Mark::Withdrawn;
        }
    }
}

// Stays: a struct of the two borrows `search` and `stored`, which `offer`, `offer_fan`, `expand` and `take_turns` take,
// would be made in one place and taken apart in each.
/// Offers an item, as the slot that it would fill.
fn offer<S: Search>(
    search: &S,
    stored: &mut Stored<'_, S::Item>,
    new: Slot<S::Item>,
) -> Result<(), Ending<S::Item>>
    ensures { let s = search.now in Reaches (offer_of (S.Search.kind s) (length stored.old.slots.now) new (filled stored.old)) result stored.old stored.new }
{
    if fails(search, &new) {
        return Err(Ending::Failed(new));
    }
    if dropped(search, stored.filled(), new.item) {
        return Ok(());
    }
    let count = stored.count;
    if count == stored.slots.len() {
        return Err(Ending::Full);
    }
    withdraw(search, &mut stored.slots[..count], &new);
    stored.push(new);
    Ok(())
}

// Stays: the walk rests on std alone, which has no test of one bit.
/// Whether a set of heads has this one.
fn has(heads: u32, head: u8) -> bool
    requires { head < 32 }
    ensures { result ≡ has_head heads head }
{
    (heads >> head) % 2 == 1
}

// Stays: heads and base come as pairs from the public trait `Search`, and they are taken apart here at once.
/// Offers the items of a fan, by head ascending.
pub(crate) fn offer_fan<S: Search>(
    search: &S,
    stored: &mut Stored<'_, S::Item>,
    heads: u32,
    base: S::Item,
    origin: Origin,
) -> Result<(), Ending<S::Item>>
    ensures { let s = search.now in Reaches (offers_of (S.Search.kind s) (length stored.old.slots.now) (map (reached_by origin) (fan (S.Search.with s) heads base)) (filled stored.old)) result stored.old stored.new }
{
    for head in 0..32 {
        if has(heads, head) {
            offer(search, stored, origin.slot(search.put(base, head)))?;
        }
    }
    Ok(())
}

/// Offers the successors of a slot that was taken, by command ascending.
pub(crate) fn expand<S: Search>(
    search: &S,
    stored: &mut Stored<'_, S::Item>,
    at: u16,
    taken: Slot<S::Item>,
) -> Result<(), Ending<S::Item>>
    requires { taken.depth < 4096 }
    ensures { let s = search.now in Reaches (offers_of (S.Search.kind s) (length stored.old.slots.now) (children (S.Search.kind s) at taken (S.Search.kind s).commands 0) (filled stored.old)) result stored.old stored.new }
{
    let item = taken.item;
    let depth = taken.depth + 1;
    for command in 0..search.commands() {
        let (heads, base) = search.successors(item, command);
        let origin = Origin {
            depth,
            parent: at,
            command,
        };
        offer_fan(search, stored, heads, base, origin)?;
    }
    Ok(())
}
