ghost use Rattle.std.specs.Prelude.{◌≡◌, ◌<◌, [], ◌∷◌, ◌++◌, take, MatchResult};
ghost use Rattle.automata.specs.Sets.{pack};
ghost use Rattle.automata.specs.Files.{file};
ghost use Rattle.automata.specs.Reading.{cut, stated_count};
ghost use Rattle.automata.specs.Lookup.{memb, front, viewed};
ghost use Rattle.plan.specs.Answers.{ReadAs, RefusedAs};

use crate::interface::Plan;
use crate::lookup;
use crate::reader::check_record;
use crate::records::Records;
use crate::refusal::Refusal;

/// The plan of an accepted plan file, read off its bytes. It can only be made by reading them.
#[derive(Drop)]
pub struct FilePlan<'a> {
    bytes: &'a [u8],
    ghost accepted: { file (viewed bytes.now) ≡ bytes.now },
}

impl<'a> FilePlan<'a> {
    /// Reads a plan file, record by record, in time linear in its length.
    ///
    /// The bytes are accepted exactly when they are the file of some plan, which is then the plan that was read. A
    /// refusal (15 to 21) tells the first record that is not in order, by its offset, and the first cause that speaks
    /// against it.
    pub fn read(bytes: &'a [u8]) -> Result<FilePlan<'a>, Refusal>
        ensures { MatchResult result (λ p. ReadAs bytes.now (viewed p.bytes.now)) (λ e. RefusedAs bytes.now e) }
    {
        if bytes.is_empty() {
            return Err(Refusal::EmptyFile);
        }
        let count = lookup::count_of(bytes);
        let mut before: &[u8] = &[];
        // Stays: no plainer: an iterator of records with their places would be a type for this one loop.
        let mut place = 0;
        for record in Records::new(bytes) {
            check_record(count, before, record, place)?;
            before = &record[2..];
            place += record.len();
        }
        Ok(FilePlan { bytes })
    }

    /// The states of which a record of `prefix` and the state stands in front of the arrows.
    fn marked(&self, prefix: &[u8]) -> u32
        ensures { result ≡ pack (stated_count self.now.bytes.now) (λ s. memb (prefix.now ++ (s ∷ [])) (cut (take (front self.now.bytes.now) self.now.bytes.now))) }
    {
        let (front, _) = lookup::split_front(self.bytes);
        lookup::collect(front, prefix, lookup::count_of(self.bytes))
    }

    /// The states to which arrows lead from a state that exists under a command that does. It stands apart from `targets`,
    /// which is then small enough to be laid into its callers.
    #[inline(never)]
    fn led(&self, state: u8, command: u8) -> u32
        requires { (state < stated_count self.now.bytes.now) × (command < 26) }
        ensures { result ≡ (viewed self.now.bytes.now).targets state command }
    {
        let arrows = lookup::arrows_of(self.bytes, state, command);
        lookup::collect(arrows, &[5, 0, 4, 0, state, command], self.count())
    }
}

impl<'a> Plan for FilePlan<'a> {
    ghost meaning = { λ p. viewed p.bytes.now };

    fn count(&self) -> u8 {
        lookup::count_of(self.bytes)
    }

    fn starts(&self) -> u32 {
        self.marked(&[3, 0, 2, 0])
    }

    fn ends(&self) -> u32 {
        self.marked(&[3, 0, 3, 0])
    }

    fn targets(&self, state: u8, command: u8) -> u32 {
        if state < self.count() && command < 26 {
            self.led(state, command)
        } else {
            0
        }
    }
}
