ghost use Rattle.std.specs.Prelude.{◌≡◌, ℕ, ◌<◌, List, ◌∷◌, length};
ghost use Rattle.std.specs.Iterator.{YieldsFirstRef, item_count};
ghost use Rattle.automata.specs.Reading.{piece, cut};

use std::marker::Model;

/// The records that bytes are cut into by their lengths alone, each in turn; the last may be short.
#[derive(Drop)]
pub(crate) struct Records<'a> {
    rest: &'a [u8],
}

impl<'a> Model for Records<'a> {
    ghost Value = { List (List ℕ) };

    ghost view = { λ r. cut r.rest.now };
}

impl<'a> Records<'a> {
    /// The records of the bytes.
    pub(crate) fn new(bytes: &'a [u8]) -> Records<'a>
        ensures { result ≡ cut bytes.now }
    {
        Records { rest: bytes }
    }
}

/// The record at the head of the bytes, or what is left of it, and the bytes behind it.
fn split_record(bytes: &[u8]) -> (&[u8], &[u8])
    ensures record { result.0.now ≡ piece bytes.now }
    ensures rest { 0 < length bytes.now → cut bytes.now ≡ result.0.now ∷ cut result.1.now }
{
    let size = match bytes {
        [l0, l1, ..] => u16::from_le_bytes([*l0, *l1]) as usize + 2,
        _ => 2,
    };
    bytes.split_at(size.min(bytes.len()))
}

impl<'a> Iterator for Records<'a> {
    type Item = &'a [u8];

    ghost next_gives = { YieldsFirstRef (λ r. r) };

    ghost remaining = { item_count (λ r. r) };

    fn next(&mut self) -> Option<&'a [u8]> {
        if self.rest.is_empty() {
            return None;
        }
        let (record, rest) = split_record(self.rest);
        self.rest = rest;
        Some(record)
    }
}
