ghost use Rattle.std.specs.Prelude.{◌≡◌, ℕ, ◌+◌, ◌-◌, ◌*◌, ◌^◌, ◌<◌, ◌≤◌, ◌||◌, List, [], ◌∷◌, ◌++◌, length, take, drop, slice_index};
ghost use Rattle.std.specs.List.{AllWithin};
ghost use Rattle.std.specs.List.Sorted.{IsNonDecreasingBy, IsPartitionPoint};
ghost use Rattle.automata.specs.Sets.{has, pack};
ghost use Rattle.automata.specs.Files.{file};
ghost use Rattle.automata.specs.Reading.{cut, stated_count};
ghost use Rattle.automata.specs.Lookup.{sameb, memb, front as front_of, arrows_at, viewed};
ghost use Rattle.plan.specs.Arrows.{arrow_key};

use crate::records::Records;
use automata::sets;

/// The byte at the offset, 0 where the bytes have ended.
fn byte_at(bytes: &[u8], i: usize) -> u8
    ensures { result ≡ slice_index bytes.now i }
{
    bytes.get(i).copied().unwrap_or(0)
}

/// The count of states that the head states, 32 where it states more.
pub(crate) fn count_of(bytes: &[u8]) -> u8
    ensures { result ≡ stated_count bytes.now }
{
    byte_at(bytes, 4).min(32)
}

// Stays: `count ≤ 32` in two contracts here and one in writer.rt; a type for it would be unwrapped at each use.
/// The set and the last byte of a record that begins with `prefix`, where that is below `count`.
fn mark(set: u32, row: &[u8], prefix: &[u8], count: u8) -> u32
    requires { (count ≤ 32) × (set < 2 ^ count) }
    ensures { (result < 2 ^ count) × ((k : ℕ) → k < count → has result k ≡ (sameb (prefix.now ++ (k ∷ [])) row.now || has set k)) }
{
    if let [front @ .., k] = row {
        if *k < count && front == prefix {
            return sets::with(set, *k);
        }
    }
    set
}

/// The set of the k below `count` for which a record of `prefix` and k stands in the bytes.
pub(crate) fn collect(bytes: &[u8], prefix: &[u8], count: u8) -> u32
    requires { count ≤ 32 }
    ensures { result ≡ pack count (λ k. memb (prefix.now ++ (k ∷ [])) (cut bytes.now)) }
{
    let mut set = 0;
    for record in Records::new(bytes) {
        set = mark(set, record, prefix, count);
    }
    set
}

/// How many bytes the head and the records of starts and ends take, which are five bytes each.
fn front_len(bytes: &[u8]) -> usize
    ensures { (result ≡ front_of bytes.now) × (result ≤ length bytes.now) }
{
    let (records, _) = bytes.as_chunks::<5>();
    let most = records.len().min(65);
    5 * records[..most]
        .iter()
        .position(|record| record[0] != 3)
        .unwrap_or(most)
}

/// The head and the records of starts and ends, and the bytes behind them, where the arrows are.
pub(crate) fn split_front(bytes: &[u8]) -> (&[u8], &[u8])
    ensures front { result.0.now ≡ take (front_of bytes.now) bytes.now }
    ensures arrows { result.1.now ≡ drop (front_of bytes.now) bytes.now }
{
    bytes.split_at(front_len(bytes))
}

/// The state and command of an arrow's record, as one number.
fn key(arrow: &[u8; 7]) -> usize
    ensures { result ≡ arrow_key arrow.now }
{
    arrow[4] as usize * 256 + arrow[5] as usize
}

/// How many of the arrows, whose keys ascend, have a key below `least`.
fn below(arrows: &[[u8; 7]], least: usize) -> usize
    requires { IsNonDecreasingBy arrow_key arrows.now }
    ensures boundary { IsPartitionPoint (λ g. arrow_key g < least) (λ g. least ≤ arrow_key g) arrows.now result }
    ensures within { result ≤ length arrows.now }
{
    arrows.partition_point(|arrow| key(arrow) < least)
}

/// How many of the arrows, whose keys ascend from `least` on, have just that key. They are few, so they are counted.
fn alike(arrows: &[[u8; 7]], least: usize) -> usize
    requires { IsNonDecreasingBy arrow_key arrows.now × AllWithin (λ g. least ≤ arrow_key g) arrows.now 0 (length arrows.now) }
    ensures boundary { IsPartitionPoint (λ g. arrow_key g < least + 1) (λ g. least + 1 ≤ arrow_key g) arrows.now result }
    ensures within { result ≤ length arrows.now }
{
    arrows
        .iter()
        .position(|arrow| key(arrow) != least)
        .unwrap_or(arrows.len())
}

/// The records of the arrows from `state` under `command` in the file of a plan.
pub(crate) fn arrows_of(bytes: &[u8], state: u8, command: u8) -> &[u8]
    requires { file (viewed bytes.now) ≡ bytes.now }
    ensures { cut result.now ≡ arrows_at bytes.now state command }
{
    let (_, arrows) = split_front(bytes);
    let (arrows, _) = arrows.as_chunks::<7>();
    let least = state as usize * 256 + command as usize;
    let first = below(arrows, least);
    let (_, behind) = arrows.split_at(first);
    let count = alike(behind, least);
    behind[..count].as_flattened()
}
