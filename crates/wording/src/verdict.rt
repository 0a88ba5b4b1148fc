ghost use Rattle.std.specs.Prelude.{◌≡◌, map};
ghost use Rattle.wording.specs.Texts.{Appends};
ghost use Rattle.wording.specs.Verdicts.{verdict_text, letter as letter_of, run_text, then_text, told_run, found_text, search_text, meaning_text, finding_text};

use crate::text::{push_byte, push_named_number, push_text};
use std::alloc::AllocError;
use walk::verdict::{Numbers, Verdict};

// Stays: no plainer: `write!` on a `Vec<u8>` answers an `io::Error`, and what appends here an `AllocError`.
/// The verdict by its number: 0 passed, 1 failed, and full for any other.
fn verdict_word(verdict: u8) -> &'static [u8]
    ensures { result.now ≡ verdict_text verdict }
{
    match Verdict::from(verdict) {
        Verdict::Passed => b"passed",
        Verdict::Failed => b"failed",
        Verdict::Full => b"full",
    }
}

/// The letter of a command, and `?` for a byte that is no command.
fn letter(command: u8) -> u8
    ensures { result ≡ letter_of command }
{
    if command < 26 { b'a' + command } else { b'?' }
}

/// Appends the letter of each command of the run.
fn push_letters(out: &mut Vec<u8>, run: &[u8]) -> Result<(), AllocError>
    ensures { Appends result out.old.items out.new.items (map letter_of run.now) }
{
    for command in run {
        push_byte(out, letter(*command))?;
    }
    Ok(())
}

/// Appends the run by its letters, and `-` where it is empty.
fn push_run(out: &mut Vec<u8>, run: &[u8]) -> Result<(), AllocError>
    ensures { Appends result out.old.items out.new.items (run_text run.now) }
{
    if run.is_empty() {
        push_text(out, b"-")
    } else {
        push_letters(out, run)
    }
}

/// Appends further commands of a run, each behind the one before it.
fn push_then(out: &mut Vec<u8>, run: &[u8]) -> Result<(), AllocError>
    ensures { Appends result out.old.items out.new.items (then_text run.now) }
{
    for command in run {
        push_text(out, b", then ")?;
        push_byte(out, letter(*command))?;
    }
    Ok(())
}

/// Appends the run by its letters, and read out in parentheses.
fn push_told_run(out: &mut Vec<u8>, run: &[u8]) -> Result<(), AllocError>
    ensures { Appends result out.old.items out.new.items (told_run run.now) }
{
    push_run(out, run)?;
    push_text(out, b" (start")?;
    push_then(out, run)?;
    push_text(out, b")")
}

/// Appends the run that failed brings, and nothing for the other verdicts.
fn push_found(out: &mut Vec<u8>, verdict: u8, run: &[u8]) -> Result<(), AllocError>
    ensures { Appends result out.old.items out.new.items (found_text verdict run.now) }
{
    if Verdict::from(verdict) != Verdict::Failed {
        return Ok(());
    }
    push_text(out, b", run ")?;
    push_told_run(out, run)
}

/// Appends what a search answered: the verdict, the length of the run and the number of stored items; and for failed
/// the run, which stands in front in its buffer.
#[tactic(auto, unfolding(crate::specs::Verdicts::search_text))]
pub fn word_search(out: &mut Vec<u8>, answer: Numbers, run: &[u8]) -> Result<(), AllocError>
    ensures { Appends result out.old.items out.new.items (search_text answer run.now) }
{
    let (verdict, length, stored) = answer;
    push_text(out, verdict_word(verdict))?;
    push_named_number(out, b", length ", length)?;
    push_named_number(out, b", stored ", stored)?;
    push_found(out, verdict, &run[0..length.min(run.len())])
}

// Stays: no plainer: `write!` on a `Vec<u8>` answers an `io::Error`, and what appends here an `AllocError`.
// A short and a long text of a verdict: each is the text of a definition of its own.
/// The verdict of a comparison in words.
fn meaning(verdict: u8) -> &'static [u8]
    ensures { result.now ≡ meaning_text verdict }
{
    match Verdict::from(verdict) {
        Verdict::Passed => b"passed: the rule permits every run of the programme",
        Verdict::Failed => b"failed: the programme permits a run that the rule does not",
        Verdict::Full => b"full: more slots are needed",
    }
}

/// Appends what a comparison found, for a person to read: the verdict in words, and after failed the run, which stands in
/// front in its buffer.
#[tactic(auto, unfolding(crate::specs::Verdicts::finding_text))]
pub fn word_finding(out: &mut Vec<u8>, answer: Numbers, run: &[u8]) -> Result<(), AllocError>
    ensures { Appends result out.old.items out.new.items (finding_text answer run.now) }
{
    push_text(out, meaning(answer.0))?;
    push_found(out, answer.0, &run[0..answer.1.min(run.len())])
}
