ghost use Rattle.std.specs.Prelude.{◌≡◌, ℕ, ◌<◌, List, [], ◌∷◌, length, MatchResult, ◌⊎◌};
ghost use Rattle.automata.specs.Records.{size as stated_size};
ghost use Rattle.automata.specs.Reading.{limit as below_limit, inside, lexb, misplaced as wrong_place, causes, NoneHolds, FirstHolds};
ghost use Rattle.plan.specs.Kinds.{kind_number};
ghost use Rattle.plan.specs.Refusals.{number_of, values_of};

use crate::refusal::Refusal;

/// The kinds of records.
#[derive(Clone, Copy, PartialEq, Eq)]
enum Kind {
    /// 1: the count of states.
    Head,
    /// 2: a start.
    Start,
    /// 3: an end.
    End,
    /// 4: an arrow.
    Arrow,
}

impl TryFrom<u16> for Kind {
    type Error = ();

    ghost try_from_gives = { λ n r. MatchResult r (λ k. n ≡ kind_number k) (λ _. (n < 1) ⊎ (4 < n)) };

    fn try_from(number: u16) -> Result<Kind, ()> {
        match number {
            1 => Ok(Kind::Head),
            2 => Ok(Kind::Start),
            3 => Ok(Kind::End),
            4 => Ok(Kind::Arrow),
            _ => Err(()),
        }
    }
}

impl Kind {
    /// The length that a record of this kind states.
    fn size(self) -> usize
        ensures { result ≡ stated_size (kind_number self) }
    {
        match self {
            Kind::Arrow => 5,
            _ => 3,
        }
    }

    /// What the body's field at place `i` stays below, in a file of `count` states.
    fn limit(self, count: u8, i: usize) -> u8
        ensures { result ≡ below_limit count (kind_number self) i }
    {
        match (self, i) {
            (Kind::Head, _) => 33,
            (_, 1) => 26,
            _ => count,
        }
    }

    /// Whether a record of this kind may not stand behind `before`: a head comes first, and nothing else does.
    fn is_misplaced(self, before: &[u8]) -> bool
        ensures { result ≡ wrong_place before.now (kind_number self) }
    {
        before.is_empty() == (self != Kind::Head)
    }
}

/// Whether each field of a record's body is within its range.
fn in_range(count: u8, kind: Kind, body: &[u8]) -> bool
    ensures { result ≡ inside count (kind_number kind) 0 body.now }
{
    // Stays: a loop over the body with its index is a form of the project (docs/DECISIONS.md, "Forms").
    for (i, field) in body.iter().enumerate() {
        if *field >= kind.limit(count, i) {
            return false;
        }
    }
    true
}

/// Whether `x` comes before `y`, byte by byte.
fn ascends(x: &[u8], y: &[u8]) -> bool
    ensures { result ≡ lexb x.now y.now }
{
    x < y
}

/// Checks a record at offset `place` of a file of `count` states, behind a record whose kind and body are `before` (nothing
/// where it is the first). Refuses it by its first fault.
pub(crate) fn check_record(
    count: u8,
    before: &[u8],
    row: &[u8],
    place: usize,
) -> Result<(), Refusal>
    ensures { MatchResult result (λ _. (4 < length row.now) × NoneHolds (causes count before.now row.now)) (λ e. (values_of e ≡ place ∷ []) × FirstHolds (number_of e) (causes count before.now row.now)) }
{
    let [l0, l1, k0, k1, body @ ..] = row else {
        return Err(check_short(row, place));
    };
    let len = u16::from_le_bytes([*l0, *l1]) as usize;
    if row.len() < len + 2 {
        return Err(Refusal::Truncated { place });
    }
    if len < 2 {
        return Err(Refusal::WrongLength { place });
    }
    let Ok(kind) = Kind::try_from(u16::from_le_bytes([*k0, *k1])) else {
        return Err(Refusal::UnknownKind { place });
    };
    if len != kind.size() {
        return Err(Refusal::WrongLength { place });
    }
    if kind.is_misplaced(before) {
        return Err(Refusal::MisplacedHead { place });
    }
    if !in_range(count, kind, body) {
        return Err(Refusal::OutOfRange { place });
    }
    if !ascends(before, &row[2..]) {
        return Err(Refusal::NotAscending { place });
    }
    Ok(())
}

/// The fault of a record of fewer than four bytes: its length is too small for a kind where the bytes that it states are
/// there, else the file ends inside it.
fn check_short(row: &[u8], place: usize) -> Refusal
    ensures { length row.now < 4 → (values_of result ≡ place ∷ []) × ((n : ℕ) (p : List ℕ) → FirstHolds (number_of result) (causes n p row.now)) }
{
    match row {
        [l0, l1, ..] if u16::from_le_bytes([*l0, *l1]) as usize + 2 <= row.len() => {
            Refusal::WrongLength { place }
        }
        _ => Refusal::Truncated { place },
    }
}
