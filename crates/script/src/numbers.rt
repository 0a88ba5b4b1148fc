ghost use Rattle.std.specs.Prelude.{◌≡◌, ◌^◌};
ghost use Rattle.script.specs.Numbers.{decimal, below, command_number};

// Stays: the digits by hand. `parse` also takes a leading `+`, and it reads a `str`, while a word need be no text.
/// The number below 2^64 that the word writes in decimal digits: a length in bytes.
pub fn length(word: &[u8]) -> Option<usize>
    ensures { result ≡ below (2 ^ 64) (decimal word.now) }
{
    if word.is_empty() {
        return None;
    }
    let mut n: usize = 0;
    for b in word {
        if !b.is_ascii_digit() {
            return None;
        }
        n = n.checked_mul(10)?.checked_add(usize::from(*b - b'0'))?;
    }
    Some(n)
}

/// The number below 256 that the word writes: a side or a state.
pub fn byte(word: &[u8]) -> Option<u8>
    ensures { result ≡ below 256 (decimal word.now) }
{
    u8::try_from(length(word)?).ok()
}

/// The command that the word stands for: a small letter for 0 to 25, or a number below 256.
pub fn command(word: &[u8]) -> Option<u8>
    ensures { result ≡ command_number word.now }
{
    match word {
        [b @ b'a'..=b'z'] => Some(*b - b'a'),
        _ => byte(word),
    }
}
