ghost use Rattle.std.specs.Prelude.{◌≡◌};
ghost use Rattle.std.specs.Option.{option_map};
ghost use Rattle.script.specs.Words.{words_left};
ghost use Rattle.script.specs.Arguments.{name_of, hex_of, last, name_alone, name_and_hex, side_alone, side_and_state, side_and_arrow, side_and_buffer, hex_alone, two_names, order_alone, bytes_or, terms_said, order_slots_bytes, count_and_search, subject_said, subject_alone};

use crate::hex::is_hex;
use crate::numbers::{byte, command, length};
use crate::order_name::{OrderName, order_name};
use crate::terms::Terms;
use crate::words::Words;

/// What is shown or drawn: the plan of a name, or a side.
#[derive(Clone, Copy)]
pub(crate) enum PlanOrSide<'a> {
    Plan(&'a [u8]),
    Side(u8),
}

/// The word as a name: it begins with a letter.
pub(crate) fn name(word: &[u8]) -> Option<&[u8]>
    ensures { option_map (λ x. x.now) result ≡ name_of word.now }
{
    word.first()?.is_ascii_alphabetic().then_some(word)
}

/// The word as the digits of bytes.
fn hex(word: &[u8]) -> Option<&[u8]>
    ensures { option_map (λ x. x.now) result ≡ hex_of word.now }
{
    is_hex(word).then_some(word)
}

/// The value, if no words are left.
pub(crate) fn last<T: Drop>(value: T, mut words: Words<'_>) -> Option<T>
    ensures { result ≡ last value (words_left words.entry) }
{
    words.next().is_none().then_some(value)
}

// Stays: a function for each list of arguments, each with its definition in specs/Arguments.antt. One function over the
// words' readers would say what it answers by the `post` of closures, and each call of it would need a proof.
/// One name.
pub(crate) fn name_alone(mut words: Words<'_>) -> Option<&[u8]>
    ensures { option_map (λ x. x.now) result ≡ name_alone (words_left words.entry) }
{
    let name = name(words.next()?)?;
    last(name, words)
}

/// A name and the digits of bytes.
pub(crate) fn name_and_hex(mut words: Words<'_>) -> Option<(&[u8], &[u8])>
    ensures { option_map (λ x. (x.0.now, x.1.now)) result ≡ name_and_hex (words_left words.entry) }
{
    let name = name(words.next()?)?;
    let hex = hex(words.next()?)?;
    last((name, hex), words)
}

/// One side.
pub(crate) fn side_alone(mut words: Words<'_>) -> Option<u8>
    ensures { result ≡ side_alone (words_left words.entry) }
{
    let side = byte(words.next()?)?;
    last(side, words)
}

/// A side and a state.
pub(crate) fn side_and_state(mut words: Words<'_>) -> Option<(u8, u8)>
    ensures { result ≡ side_and_state (words_left words.entry) }
{
    let side = byte(words.next()?)?;
    let state = byte(words.next()?)?;
    last((side, state), words)
}

/// A side and an arrow: a state, a command and a state.
pub(crate) fn side_and_arrow(mut words: Words<'_>) -> Option<(u8, u8, u8, u8)>
    ensures { result ≡ side_and_arrow (words_left words.entry) }
{
    let side = byte(words.next()?)?;
    let from = byte(words.next()?)?;
    let command = command(words.next()?)?;
    let to = byte(words.next()?)?;
    last((side, from, command, to), words)
}

/// A number of bytes, which is `otherwise` where it is left out.
fn bytes_or(mut words: Words<'_>, otherwise: usize) -> Option<usize>
    ensures { result ≡ bytes_or otherwise (words_left words.entry) }
{
    match words.next() {
        None => Some(otherwise),
        Some(word) => last(length(word)?, words),
    }
}

/// A side and the length of a buffer, which is 8192 where it is left out.
pub(crate) fn side_and_buffer(mut words: Words<'_>) -> Option<(u8, usize)>
    ensures { result ≡ side_and_buffer (words_left words.entry) }
{
    let side = byte(words.next()?)?;
    let buffer = bytes_or(words, 8192)?;
    Some((side, buffer))
}

/// The digits of bytes.
pub(crate) fn hex_alone(mut words: Words<'_>) -> Option<&[u8]>
    ensures { option_map (λ x. x.now) result ≡ hex_alone (words_left words.entry) }
{
    let hex = hex(words.next()?)?;
    last(hex, words)
}

// Stays: one function over `&mut Words` would spare a line in three places and need a definition of what is left.
/// Two names.
pub(crate) fn two_names(mut words: Words<'_>) -> Option<(&[u8], &[u8])>
    ensures { option_map (λ x. (x.0.now, x.1.now)) result ≡ two_names (words_left words.entry) }
{
    let first = name(words.next()?)?;
    let second = name(words.next()?)?;
    last((first, second), words)
}

/// The name of an order.
pub(crate) fn order_alone(mut words: Words<'_>) -> Option<OrderName>
    ensures { result ≡ order_alone (words_left words.entry) }
{
    let order = order_name(words.next()?)?;
    last(order, words)
}

/// The plan of a name, or a side.
pub(crate) fn plan_or_side(mut words: Words<'_>) -> Option<PlanOrSide<'_>>
    ensures { option_map subject_said result ≡ subject_alone (words_left words.entry) }
{
    let word = words.next()?;
    let subject = match name(word) {
        Some(name) => PlanOrSide::Plan(name),
        None => PlanOrSide::Side(byte(word)?),
    };
    last(subject, words)
}

/// The terms of a search: the name of an order, a number of slots, and the length of a run buffer, which has a byte for
/// each slot where it is left out.
#[tactic(auto, unfolding(crate::specs::Arguments::order_slots_bytes))]
pub(crate) fn terms(mut words: Words<'_>) -> Option<Terms>
    ensures { option_map terms_said result ≡ order_slots_bytes (words_left words.entry) }
{
    let order = order_name(words.next()?)?;
    let slots = length(words.next()?)?;
    let bytes = bytes_or(words, slots)?;
    Some(Terms {
        order,
        slots,
        bytes,
    })
}

/// A number of commands, and the terms of a search.
#[tactic(auto, unfolding(crate::specs::Arguments::count_and_search))]
pub(crate) fn count_and_terms(mut words: Words<'_>) -> Option<(u8, Terms)>
    ensures { option_map (λ x. (x.0, x.1.order, x.1.slots, x.1.bytes)) result ≡ count_and_search (words_left words.entry) }
{
    let commands = byte(words.next()?)?;
    let terms = terms(words)?;
    Some((commands, terms))
}
