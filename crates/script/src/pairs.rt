ghost use Rattle.std.specs.Prelude.{◌≡◌, ℕ, ◌+◌, ◌*◌, ◌/◌, ◌%◌, ◌<◌, length, IfSome, slice_index};
ghost use Rattle.automata.specs.Sets.{has};
ghost use Rattle.script.specs.Words.{words};
ghost use Rattle.script.specs.Numbers.{decimal, below};
ghost use Rattle.script.specs.Pairs.{pair_of, all_pairs, listed};

use crate::words::Words;

// Stays: its own digits in place of `byte` and a filter. An order lists thousands of pairs, and `byte` watches each digit
// for a number past 2^64.
/// The state of a comparison that the word writes: a number below 64.
fn state(word: &[u8]) -> Option<u8>
    ensures value { result ≡ below 64 (decimal word.now) }
    ensures small { IfSome result (λ n. n < 64) }
{
    if word.is_empty() {
        return None;
    }
    let mut n: u16 = 0;
    for b in word {
        if !b.is_ascii_digit() {
            return None;
        }
        n = 10 * n + u16::from(*b - b'0');
        if n >= 64 {
            return None;
        }
    }
    Some(n as u8)
}

/// The pair of numbers below 64 that the word is, written `P<R`.
fn pair(word: &[u8]) -> Option<(u8, u8)>
    ensures value { result ≡ pair_of word.now }
    ensures small { IfSome result (λ x. (x.0 < 64) × (x.1 < 64)) }
{
    let sign = word.iter().position(|b| *b == b'<')?;
    let p = state(&word[..sign])?;
    let r = state(&word[sign + 1..])?;
    Some((p, r))
}

/// Whether each word of the text is a pair.
pub(crate) fn are_pairs(text: &[u8]) -> bool
    ensures { result ≡ all_pairs (words text.now) }
{
    Words::new(text).all(|word| pair(word).is_some())
}

// Stays: 512 bytes are the format of a delivered order.
/// The pairs that the words of the text list, as 64 rows of eight bytes: bit `r` of row `p`, the lowest byte first, says
/// whether `P<R` is listed. A word that is no pair counts for nothing.
pub fn pair_bytes(text: &[u8]) -> [u8; 512]
    ensures len { length result ≡ 512 }
    ensures pairs { (p r : ℕ) → p < 64 → r < 64 → has (slice_index result (p * 8 + r / 8)) (r % 8) ≡ listed (words text.now) p r }
{
    let mut bytes = [0; 512];
    for word in Words::new(text) {
        if let Some((p, r)) = pair(word) {
            let at = p as usize * 8 + r as usize / 8;
            bytes[at] |= 1 << (r % 8);
        }
    }
    bytes
}
