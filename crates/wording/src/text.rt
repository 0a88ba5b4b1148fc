ghost use Rattle.std.specs.Prelude.{◌≡◌, [], ◌∷◌, take};
ghost use Rattle.script.specs.Words.{words};
ghost use Rattle.wording.specs.Texts.{Appends, numeral, named_number, behind_spaces};

use itoa::Buffer;
use script::words::{Words, first_word};
use std::alloc::AllocError;

// Stays: answers are built in a `Vec<u8>`, not a `String`, since a script's words are any bytes.
/// Appends one byte.
pub(crate) fn push_byte(out: &mut Vec<u8>, b: u8) -> Result<(), AllocError>
    ensures { Appends result out.old.items out.new.items (b ∷ []) }
{
    out.push(b)?;
    Ok(())
}

/// Appends the text.
pub(crate) fn push_text(out: &mut Vec<u8>, text: &[u8]) -> Result<(), AllocError>
    ensures { Appends result out.old.items out.new.items text.now }
{
    out.extend_from_slice(text)
}

/// Appends the number in decimal digits. Nearly all numbers have one or two, which go out as they are; the others are
/// formatted first.
pub(crate) fn push_number(out: &mut Vec<u8>, n: usize) -> Result<(), AllocError>
    ensures { Appends result out.old.items out.new.items (numeral n) }
{
    match n {
        0..=9 => push_byte(out, b'0' + n as u8),
        10..=99 => {
            push_byte(out, b'0' + (n / 10) as u8)?;
            push_byte(out, b'0' + (n % 10) as u8)
        },
        _ => push_text(out, Buffer::new().format(n).as_bytes()),
    }
}

/// Appends the name and the number.
pub(crate) fn push_named_number(out: &mut Vec<u8>, name: &[u8], n: usize) -> Result<(), AllocError>
    ensures { Appends result out.old.items out.new.items (named_number name.now n) }
{
    push_text(out, name)?;
    push_number(out, n)
}

/// Appends the first word of the line behind a space, if it has one.
pub(crate) fn push_first_word(out: &mut Vec<u8>, line: &[u8]) -> Result<(), AllocError>
    ensures { Appends result out.old.items out.new.items (behind_spaces (take 1 (words line.now))) }
{
    if let Some((word, _)) = first_word(line) {
        push_byte(out, b' ')?;
        push_text(out, word)?;
    }
    Ok(())
}

/// Appends the words of the line, each behind a space.
pub(crate) fn push_words(out: &mut Vec<u8>, line: &[u8]) -> Result<(), AllocError>
    ensures { Appends result out.old.items out.new.items (behind_spaces (words line.now)) }
{
    for word in Words::new(line) {
        push_byte(out, b' ')?;
        push_text(out, word)?;
    }
    Ok(())
}
