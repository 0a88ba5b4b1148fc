ghost use Rattle.std.specs.Prelude.{◌≡◌, ◌<◌, IfOk};
ghost use Rattle.script.specs.Hex.{hex_value, hex_word, unhexed};

use crate::words::is_text;
use std::alloc::{AllocError, Global};

/// The value of a hexadecimal digit, and 0 for any other byte.
fn value(b: u8) -> u8
    ensures is { result ≡ hex_value b }
    ensures small { result < 16 }
{
    char::from(b).to_digit(16).unwrap_or(0) as u8
}

/// Whether the word stands for bytes: an even number of hexadecimal digits, or the single `-`.
pub fn is_hex(word: &[u8]) -> bool
    ensures { result ≡ hex_word word.now }
{
    is_text(word, b"-") || word.len() % 2 == 0 && word.iter().all(|b| b.is_ascii_hexdigit())
}

/// The bytes that the word spells, two digits for each. A byte that is no digit counts as 0, and a last byte that has
/// no partner is passed over, so that `-` spells no bytes.
pub fn decode(heap: Global, word: &[u8]) -> Result<Vec<u8>, AllocError>
    ensures { IfOk result (λ v. v.items ≡ unhexed word.now) }
{
    let mut bytes = Vec::new(heap);
    for pair in word.chunks_exact(2) {
        bytes.push(16 * value(pair[0]) + value(pair[1]))?;
    }
    Ok(bytes)
}
