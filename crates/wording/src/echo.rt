ghost use Rattle.std.specs.Prelude.{◌≡◌};
ghost use Rattle.script.specs.Words.{words};
ghost use Rattle.wording.specs.Texts.{Appends, behind_spaces, repeated, echoed};

use crate::text::{push_first_word, push_text, push_words};
use script::words::first_word;
use std::alloc::AllocError;

/// Appends what an answer repeats of the words behind the first word, each behind a space.
fn push_repeated(out: &mut Vec<u8>, word: &[u8], rest: &[u8]) -> Result<(), AllocError>
    ensures { Appends result out.old.items out.new.items (behind_spaces (repeated word.now (words rest.now))) }
{
    match word {
        b"plan" => push_first_word(out, rest),
        b"pairs" | b"deliver" => Ok(()),
        _ => push_words(out, rest),
    }
}

/// Appends the statement as its answer repeats it: the line's words with single spaces between them, but of a line
/// whose first word is `plan` only the first two, and of one whose first word is `pairs` or `deliver` only that.
pub fn echo(out: &mut Vec<u8>, line: &[u8]) -> Result<(), AllocError>
    ensures { Appends result out.old.items out.new.items (echoed (words line.now)) }
{
    let Some((word, rest)) = first_word(line) else {
        return Ok(());
    };
    push_text(out, word)?;
    push_repeated(out, word, rest)
}
