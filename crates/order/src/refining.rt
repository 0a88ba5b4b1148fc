ghost use Rattle.std.specs.Prelude.{◌≡◌, ℕ, ◌+◌, ◌<◌, ◌≤◌, min, true, false, ◌↔◌, if◌then◌else◌, bit_and, slice_index};
ghost use Rattle.automata.specs.Sets.{has};
ghost use Rattle.automata.specs.Relations.{bits, total};
ghost use Rattle.automata.specs.Refining.{Into, Matches};

use crate::sets::Members;

/// For each command the numbers that have an arrow under it into the set.
fn ahead(sources: &[u64; 1664], set: u64) -> [u64; 26]
    ensures { (c r : ℕ) → c < 26 → (has (slice_index result c) r ≡ true) ↔ Into sources.now c set r }
{
    let mut able = [0; 26];
    for u in Members(set) {
        // Stays: nothing is known of a slice after an adapter of `iter_mut` but `enumerate`, so `zip` would lose `able`.
        for (c, joined) in able.iter_mut().enumerate() {
            *joined |= sources[u as usize * 26 + c];
        }
    }
    able
}

/// Narrows the rows of the users to the able, and answers whose rows have changed.
fn narrow(rows: &mut [u64; 64], users: u64, able: u64) -> u64
    ensures rows { (p : ℕ) → slice_index rows.new p ≡ (if has users p then bit_and (slice_index rows.old p) able else slice_index rows.old p) }
    ensures kept { (p : ℕ) → has result p ≡ false → slice_index rows.new p ≡ slice_index rows.old p }
    ensures less { total rows.new + min 1 result ≤ total rows.old }
{
    let mut changed = 0;
    for p in Members(users) {
        let old = rows[p as usize];
        let new = old & able;
        if new != old {
            rows[p as usize] = new;
            changed |= 1 << p;
        }
    }
    changed
}

/// Keeps in the rows the pairs whose arrows to `t` are matched by arrows into `above`, and answers whose rows have
/// changed.
pub(crate) fn settle(sources: &[u64; 1664], t: u8, above: u64, rows: &mut [u64; 64]) -> u64
    requires { t < 64 }
    ensures pairs { (p r : ℕ) → (bits rows.new p r ≡ true) ↔ ((bits rows.old p r ≡ true) × Matches sources.now t above p r) }
    ensures kept { (p : ℕ) → has result p ≡ false → slice_index rows.new p ≡ slice_index rows.old p }
    ensures less { total rows.new + min 1 result ≤ total rows.old }
{
    let able = ahead(sources, above);
    let mut changed = 0;
    // Stays: no plainer: zipped, the loop knows `able` by what its iterator has left alone, and would have to tell it.
    for (c, set) in able.iter().enumerate() {
        changed |= narrow(rows, sources[t as usize * 26 + c], *set);
    }
    changed
}
