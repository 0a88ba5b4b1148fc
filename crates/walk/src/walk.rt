ghost use Rattle.std.specs.Prelude.{◌≡◌, ◌≤◌, min, ◌++◌, length, drop};
ghost use Rattle.walk.specs.Kinds.{Facts, Transitive};
ghost use Rattle.walk.specs.Walks.{pick, walk as walk_of};
ghost use Rattle.walk.specs.Progress.{filled, chosen as chosen_of, marked as marked_of, Ends, Settles};
ghost use Rattle.walk.specs.Answers.{usable as usable_slots, Walked};
ghost use Rattle.walk.specs.Statements.{Means, SameWithMore, NeverFull, NoItemTwice, NoneWaits};

use crate::offer::{Ending, expand, offer_fan};
use crate::origin::Origin;
use crate::run::trace;
use crate::search::Search;
use crate::slot::{Mark, Slot};
use crate::stored::Stored;
use crate::verdict::{Numbers, Verdict};

/// How many slots are usable at the most.
const SLOT_LIMIT: usize = 4096;

/// Marks the lowest waiting slot taken, and answers its number and what it was.
fn take_lowest<I: Copy + Drop>(stored: &mut Stored<'_, I>) -> Option<(usize, Slot<I>)>
    ensures chosen { result ≡ chosen_of (pick (filled stored.old)) }
    ensures marked { stored.new.slots.now ≡ marked_of (pick (filled stored.old)) (filled stored.old) ++ drop stored.old.count stored.old.slots.now }
    ensures lent { stored.new.slots.ghost_name ≡ stored.old.slots.ghost_name }
    ensures count { stored.new.count ≡ stored.old.count }
{
    let at = stored
        .filled()
        .iter()
        .position(|slot| slot.mark == Mark::Waiting)?;
    let slot = stored.slots[at];
    stored.slots[at].mark = Mark::Taken;
    Some((at, slot))
}

/// Offers the starts, and then takes slot after slot, until nothing waits or an offer ends the walk.
fn take_turns<S: Search>(
    search: &S,
    stored: &mut Stored<'_, S::Item>,
) -> Result<(), Ending<S::Item>>
    requires { (stored.old.count ≡ 0) × (length stored.old.slots.now ≤ 4096) }
    ensures { let s = search.now in Ends (walk_of (S.Search.kind s) (length stored.old.slots.now)) result stored.old stored.new }
{
    let (heads, base) = search.starts();
    offer_fan(search, stored, heads, base, Origin::START)?;
    while let Some((at, slot)) = take_lowest(stored) {
        expand(search, stored, at as u16, slot)?;
    }
    Ok(())
}

/// Walks over the slots, and answers how an offer ended the walk, if one did, and how many slots are filled.
fn settle<S: Search>(
    search: &S,
    slots: &mut [Slot<S::Item>],
) -> (Result<(), Ending<S::Item>>, usize)
    requires { length slots.old ≤ 4096 }
    ensures { let s = search.now in Settles (walk_of (S.Search.kind s) (length slots.old)) result.0 result.1 slots.old slots.new }
{
    let mut stored = Stored::new(slots);
    let ended = take_turns(search, &mut stored);
    (ended, stored.count)
}

/// How many of so many slots are usable: the first 4,096, or all where there are fewer.
pub fn usable(len: usize) -> usize
    ensures { result ≡ min 4096 len }
{
    len.min(SLOT_LIMIT)
}

// Stays: there is one reason for no answer, and the callers name it by `ok_or`; slots and run are two buffers that the
// callers hold apart.
/// The walk: verdict (0 passed, 1 failed, 2 full), length of the run, and number of stored items.
///
/// Nothing is answered and nothing is changed where the run buffer is shorter than the usable slots. Otherwise the
/// answer, the slots and the run buffer are what the definition of the walk gives, whatever the kind; slots that the
/// walk did not fill and bytes behind the run are as before.
///
/// Whatever the kind, more slots give the same answer, slots and run unless it is full, and after passed no stored
/// item waits.
///
/// Where the kind has the facts of a search, passed means that no start misses any run, and failed means that a start
/// misses the run in the buffer and no start misses a shorter one. Where covering is transitive too, no item is stored
/// twice, so the answer is never full once there are as many usable slots as fit items.
pub fn walk<S: Search>(search: &S, slots: &mut [Slot<S::Item>], run: &mut [u8]) -> Option<Numbers>
    ensures leaves { let s = search.now in Walked (S.Search.kind s) result slots.old slots.new run.old run.new }
    ensures means { let s = search.now in (Facts (S.Search.kind s) (S.Search.fit s) (S.Search.misses s) → Means (S.Search.kind s) (S.Search.misses s) result run.new) }
    ensures more_slots_same_answer { let s = search.now in SameWithMore (S.Search.kind s) result slots.old slots.new run.old run.new }
    ensures never_full { let s = search.now in (Facts (S.Search.kind s) (S.Search.fit s) (S.Search.misses s) → Transitive (S.Search.kind s) (S.Search.fit s) → NeverFull (S.Search.fit s) result (usable_slots slots.old)) }
    ensures no_item_twice { let s = search.now in (Facts (S.Search.kind s) (S.Search.fit s) (S.Search.misses s) → Transitive (S.Search.kind s) (S.Search.fit s) → NoItemTwice result slots.new) }
    ensures passed_none_waits { NoneWaits result slots.new }
{
    let usable = usable(slots.len());
    if run.len() < usable {
        return None;
    }
    let (ended, stored) = settle(search, &mut slots[..usable]);
    match ended {
        Ok(()) => Some((Verdict::Passed.into(), 0, stored)),
        Err(Ending::Failed(hit)) => {
            let long = trace(&slots[..stored], &hit, run);
            Some((Verdict::Failed.into(), long, stored))
        }
        Err(Ending::Full) => Some((Verdict::Full.into(), 0, stored)),
    }
}
