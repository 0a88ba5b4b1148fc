ghost use Rattle.std.specs.Prelude.{◌≡◌, Some};
ghost use Rattle.plan.specs.Refusals.{number_of, values_of, reason_of};
ghost use Rattle.plan.specs.Values.{listed};

pub use crate::values::Values;
use std::error::Error;
use std::fmt;

/// Why a call is refused. A refused call makes nothing and changes nothing.
///
/// Each case has a fixed number, 1 to 22, and the values that it brings; states `p`, `q`, `r` and `target` are in the
/// numbering of a comparison, and a `place` is the offset of a record's first byte.
#[derive(Clone, Copy, Debug, PartialEq, Eq)]
pub enum Refusal {
    /// 1: a side is 0 or 1.
    NoSuchSide,
    /// 2: a side has 32 states already.
    SideFull,
    /// 3: the side has no such state.
    NoSuchState,
    /// 4: a command is at most 25.
    NoSuchCommand,
    /// 5: the run buffer is shorter than the usable slots.
    RunBufferShort,
    /// 6: `p` is not below itself.
    NotReflexive {
        p: u8,
    },
    /// 7: `p` is below `q` and `q` below `r`, but `p` is not below `r`.
    NotTransitive {
        p: u8,
        q: u8,
        r: u8,
    },
    /// 8: `p` is below `r` and an end, but `r` is no end.
    EndNotKept {
        p: u8,
        r: u8,
    },
    /// 9: `p` is below `r`, and its arrow under `command` to `target` has no answering arrow of `r`.
    ArrowNotMatched {
        p: u8,
        r: u8,
        command: u8,
        target: u8,
    },
    /// 10: the number of commands is not 1 to 26.
    CommandCount,
    /// 11: release, and nothing was compared since the last drawing.
    NotCompared,
    /// 12: release, and the last comparison failed.
    ComparisonFailed,
    /// 13: release, and the last comparison ran out of slots.
    ComparisonFull,
    /// 14: a delivered order is not of 512 bytes.
    OrderLength,
    /// 15: the file is empty; its place is 0.
    EmptyFile,
    /// 16: the file ends inside the record.
    Truncated {
        place: usize,
    },
    /// 17: the record's kind is not 1 to 4.
    UnknownKind {
        place: usize,
    },
    /// 18: the record's length is not that of its kind.
    WrongLength {
        place: usize,
    },
    /// 19: the first record is no head, or a later one is.
    MisplacedHead {
        place: usize,
    },
    /// 20: the count is above 32, or there is no such state or command.
    OutOfRange {
        place: usize,
    },
    /// 21: the record is not above the one before it.
    NotAscending {
        place: usize,
    },
    /// 22: the buffer is shorter than the file, which needs this many bytes.
    BufferShort {
        needed: usize,
    },
}

impl Refusal {
    /// The number that stands for the case, 1 to 22.
    pub fn number(&self) -> u8
        ensures { result ≡ number_of self.now }
    {
        match self {
            Refusal::NoSuchSide => 1,
            Refusal::SideFull => 2,
            Refusal::NoSuchState => 3,
            Refusal::NoSuchCommand => 4,
            Refusal::RunBufferShort => 5,
            Refusal::NotReflexive { .. } => 6,
            Refusal::NotTransitive { .. } => 7,
            Refusal::EndNotKept { .. } => 8,
            Refusal::ArrowNotMatched { .. } => 9,
            Refusal::CommandCount => 10,
            Refusal::NotCompared => 11,
            Refusal::ComparisonFailed => 12,
            Refusal::ComparisonFull => 13,
            Refusal::OrderLength => 14,
            Refusal::EmptyFile => 15,
            Refusal::Truncated { .. } => 16,
            Refusal::UnknownKind { .. } => 17,
            Refusal::WrongLength { .. } => 18,
            Refusal::MisplacedHead { .. } => 19,
            Refusal::OutOfRange { .. } => 20,
            Refusal::NotAscending { .. } => 21,
            Refusal::BufferShort { .. } => 22,
        }
    }

    /// The values that the case brings, in the order in which they are reported.
    pub fn values(&self) -> Values
        ensures { listed result ≡ values_of self.now }
    {
        match *self {
            Refusal::NotReflexive { p } => Values::of(&[p as usize]),
            Refusal::NotTransitive { p, q, r } => Values::of(&[p as usize, q as usize, r as usize]),
            Refusal::EndNotKept { p, r } => Values::of(&[p as usize, r as usize]),
            Refusal::ArrowNotMatched {
                p,
                r,
                command,
                target,
            } => Values::of(&[p as usize, r as usize, command as usize, target as usize]),
            Refusal::EmptyFile => Values::of(&[0]),
            Refusal::Truncated { place }
            | Refusal::UnknownKind { place }
            | Refusal::WrongLength { place }
            | Refusal::MisplacedHead { place }
            | Refusal::OutOfRange { place }
            | Refusal::NotAscending { place } => Values::of(&[place]),
            Refusal::BufferShort { needed } => Values::of(&[needed]),
            _ => Values::of(&[]),
        }
    }

    /// What it means, in a few words.
    pub fn reason(&self) -> &'static str
        ensures { result.now ≡ reason_of self.now }
    {
        match self {
            Refusal::NoSuchSide => "a side is 0 or 1",
            Refusal::SideFull => "the side has 32 states already",
            Refusal::NoSuchState => "no such state",
            Refusal::NoSuchCommand => "a command is at most 25",
            Refusal::RunBufferShort => "the run buffer is shorter than the usable slots",
            Refusal::NotReflexive { .. } => "this state is not below itself",
            Refusal::NotTransitive { .. } =>
                "the first is below the second and that below the third, but not the first below the third",
            Refusal::EndNotKept { .. } =>
                "the first is below the second and an end, but the second is no end",
            Refusal::ArrowNotMatched { .. } =>
                "the first is below the second, but its arrow has no answer there",
            Refusal::CommandCount => "the number of commands is not 1 to 26",
            Refusal::NotCompared => "nothing was compared since the last drawing",
            Refusal::ComparisonFailed => "the last comparison failed",
            Refusal::ComparisonFull => "the last comparison ran out of slots",
            Refusal::OrderLength => "an order has 512 bytes",
            Refusal::EmptyFile => "the file is empty",
            Refusal::Truncated { .. } => "the file ends inside the record",
            Refusal::UnknownKind { .. } => "the kind is not 1 to 4",
            Refusal::WrongLength { .. } => "the length is not that of the kind",
            Refusal::MisplacedHead { .. } => "the first record is no head, or a later one is",
            Refusal::OutOfRange { .. } => "more than 32 states, or no such state or command",
            Refusal::NotAscending { .. } => "the record is not above the one before it",
            Refusal::BufferShort { .. } => "the file needs a buffer of this many bytes",
        }
    }
}

/// What the refusal means, in a few words; its number and values are not among them.
impl fmt::Display for Refusal {
    ghost output = { λ r. Some (reason_of r) };

    fn fmt<W: fmt::Write>(&self, f: &mut fmt::Formatter<W>) -> fmt::Result {
        f.write_str(self.reason())
    }
}

impl Error for Refusal {}
