ghost use Rattle.std.specs.Prelude.{◌≡◌, ℕ, ◌+◌, ◌^◌, ◌<◌, ◌≤◌, [], ◌∷◌, ◌++◌, length, MatchResult};
ghost use Rattle.automata.specs.Sets.{has};
ghost use Rattle.automata.specs.Files.{file, joined, each, when, arrows_from, arrows};
ghost use Rattle.plan.specs.Answers.{Written, TooShort};
ghost use Rattle.plan.specs.Buffers.{Put, Puts};
ghost use Rattle.plan.specs.Tables.{drawn};

use crate::interface::Plan;
use crate::refusal::Refusal;
use crate::table::Table;
use automata::sets;

// Stays: an end beside the buffer, since the end goes on past the buffer: `write` answers the length needed.
/// A buffer that parts are put into one behind the other, each if it fits, and where the last of them ends.
#[derive(Drop)]
struct Writer<'a> {
    buffer: &'a mut [u8],
    end: usize,
}

impl<'a> Writer<'a> {
    /// Puts bytes.
    fn put(&mut self, part: &[u8])
        requires { self.old.end + length part.now < 2 ^ 64 }
        ensures { Puts self.old part.now self.new }
    {
        let start = self.end;
        let end = start + part.len();
        let buffer = &mut *self.buffer;
        if end <= buffer.len() {
            buffer[start..end].copy_from_slice(part);
        }
        self.end = end;
    }

    /// Puts the record of `prefix` and `k`, where `k` is in the set.
    fn member(&mut self, set: u32, k: u8, prefix: &[u8])
        requires { (k < 32) × ((length prefix.now ≤ 6) × (self.old.end ≤ 2 ^ 32)) }
        ensures put { Puts self.old (joined (when (has set k) (prefix.now ++ (k ∷ [])))) self.new }
        ensures size { self.new.end ≤ self.old.end + 7 }
    {
        if sets::contains(set, k) {
            self.put(prefix);
            self.put(&[k]);
        }
    }

    /// Puts the record of `prefix` and each member of the set, ascending.
    fn members(&mut self, count: u8, set: u32, prefix: &[u8])
        requires { (count ≤ 32) × ((length prefix.now ≤ 6) × (self.old.end ≤ 2 ^ 31)) }
        ensures put { Puts self.old (joined (each count (λ k. when (has set k) (prefix.now ++ (k ∷ []))))) self.new }
        ensures size { self.new.end ≤ self.old.end + 224 }
    {
        for k in 0..count {
            self.member(set, k, prefix);
        }
    }

    /// Puts the arrows from one state, ascending by command and target.
    fn arrows_from(&mut self, table: &Table, s: u8)
        requires { self.old.end ≤ 2 ^ 30 }
        ensures put { Puts self.old (joined (arrows_from (drawn table.now) s)) self.new }
        ensures size { self.new.end ≤ self.old.end + 5824 }
    {
        for c in 0..26u8 {
            self.members(table.count, table.targets(s, c), &[5, 0, 4, 0, s, c]);
        }
    }

    /// Puts all arrows, ascending by state, command and target.
    fn arrows(&mut self, table: &Table)
        requires { self.old.end ≤ 2 ^ 20 }
        ensures { Puts self.old (joined (arrows (drawn table.now))) self.new }
    {
        for s in 0..table.count {
            self.arrows_from(table, s);
        }
    }
}

/// Puts the table's file into the buffer as far as it fits, record by record, and answers its length.
fn put_file(table: &Table, buffer: &mut [u8]) -> usize
    ensures { Put buffer.old buffer.new 0 (file (drawn table.now)) result }
{
    let mut writer = Writer { buffer, end: 0 };
    writer.put(&[3, 0, 1, 0, table.count]);
    writer.members(table.count, table.starts, &[3, 0, 2, 0]);
    writer.members(table.count, table.ends, &[3, 0, 3, 0]);
    writer.arrows(table);
    writer.end
}

/// Writes the one file of a plan to the front of the buffer and answers its length; the bytes behind it stay.
///
/// What was written reads back as the plan. Refused (22, with the length needed) where the buffer is shorter than the
/// file, and then the buffer stays as it was. The plan is asked for each set of targets once.
pub fn write<P: Plan>(plan: &P, buffer: &mut [u8]) -> Result<usize, Refusal>
    ensures { MatchResult result (λ n. Written (P.Plan.meaning plan.now) buffer.old buffer.new n) (λ e. TooShort (P.Plan.meaning plan.now) buffer.old buffer.new e) }
{
    let table = Table::copy_of(plan);
    let needed = put_file(&table, &mut []);
    if buffer.len() < needed {
        return Err(Refusal::BufferShort { needed });
    }
    Ok(put_file(&table, buffer))
}
