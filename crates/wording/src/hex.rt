ghost use Rattle.std.specs.Prelude.{◌≡◌, ◌<◌, ◌++◌, length, drop, OnOk};
ghost use Rattle.script.specs.Hex.{unhexed, hex_letter, hexed};

use std::alloc::AllocError;

// Stays: `char::from_digit` answers an `Option<char>`, which would have to be unwrapped and cast.
/// The hexadecimal digit for a value below 16.
fn letter(n: u8) -> u8
    requires { n < 16 }
    ensures { result ≡ hex_letter n }
{
    if n < 10 { b'0' + n } else { b'a' + (n - 10) }
}

/// Appends the bytes in hexadecimal, two digits for each, in small letters.
pub fn encode(out: &mut Vec<u8>, bytes: &[u8]) -> Result<(), AllocError>
    ensures appended { OnOk result (out.new.items ≡ out.old.items ++ hexed bytes.now) }
    ensures back { OnOk result (unhexed (drop (length out.old.items) out.new.items) ≡ bytes.now) }
{
    for b in bytes {
        out.push(letter(*b / 16))?;
        out.push(letter(*b % 16))?;
    }
    Ok(())
}
