ghost use Rattle.std.specs.Prelude.{◌≡◌};
ghost use Rattle.std.specs.Option.{option_map};
ghost use Rattle.script.specs.Words.{words, words_left};
ghost use Rattle.script.specs.Statements.{said, passed_over, behind, statement};

use crate::arguments::{
    PlanOrSide, hex_alone, last, name, name_alone, name_and_hex, order_alone, plan_or_side,
    side_alone, side_and_arrow, side_and_buffer, side_and_state, two_names,
};
use crate::order_name::{OrderName, order_name};
use crate::pairs::are_pairs;
use crate::verb::{Verb, read_verb};
use crate::words::{Words, first_word};

/// A statement of a script. It borrows its names from the line.
#[derive(Clone, Copy, Debug, PartialEq, Eq)]
pub enum Statement<'a> {
    /// A plan under a name, as the file of bytes that the word spells.
    Plan {
        name: &'a [u8],
        hex: &'a [u8],
    },
    /// The named plan, written again.
    Rewrite {
        name: &'a [u8],
    },
    /// A new state of the side.
    State {
        side: u8,
    },
    /// The state is a start.
    Start {
        side: u8,
        state: u8,
    },
    /// The state is an end.
    End {
        side: u8,
        state: u8,
    },
    /// A new arrow.
    Arrow {
        side: u8,
        from: u8,
        command: u8,
        to: u8,
    },
    /// An arrow less.
    Lift {
        side: u8,
        from: u8,
        command: u8,
        to: u8,
    },
    /// The side as a file, in a buffer of so many bytes.
    Write {
        side: u8,
        buffer: usize,
    },
    // Stays: no plainer: one case over `PlanOrSide` would make that type public and add a match in `said`.
    /// The named plan, for a person to read.
    ShowPlan {
        name: &'a [u8],
    },
    /// The side, for a person to read.
    ShowSide {
        side: u8,
    },
    /// The pairs of the order that counts as delivered: words as `P<R`.
    Pairs {
        text: &'a [u8],
    },
    /// The order that the bytes hold, delivered.
    Deliver {
        hex: &'a [u8],
    },
    /// The greatest order of the two sides.
    Rank,
    /// The greatest order of two named plans.
    RankPlans {
        programme: &'a [u8],
        rule: &'a [u8],
    },
    /// The test of an order for the two sides.
    Test {
        order: OrderName,
    },
    /// The test of an order for two named plans.
    TestPlans {
        programme: &'a [u8],
        rule: &'a [u8],
        order: OrderName,
    },
}

/// Whether the line is passed over, with no answer: it has no word, or its first word begins with `#`.
pub fn is_passed_over(line: &[u8]) -> bool
    ensures { result ≡ passed_over (words line.now) }
{
    first_word(line).is_none_or(|(word, _)| word.starts_with(b"#"))
}

/// `show NAME` or `show SIDE`
fn show(words: Words<'_>) -> Option<Statement<'_>>
    ensures { option_map said result ≡ behind Verb.Show (words_left words.entry) }
{
    plan_or_side(words).map(|subject| match subject {
        PlanOrSide::Plan(name) => Statement::ShowPlan { name },
        PlanOrSide::Side(side) => Statement::ShowSide { side },
    })
}

/// `test-plans NAME NAME ORDER`
fn test_plans(mut words: Words<'_>) -> Option<Statement<'_>>
    ensures { option_map said result ≡ behind Verb.TestPlans (words_left words.entry) }
{
    let programme = name(words.next()?)?;
    let rule = name(words.next()?)?;
    let order = order_name(words.next()?)?;
    let statement = Statement::TestPlans {
        programme,
        rule,
        order,
    };
    last(statement, words)
}

/// The statement that the line is, or nothing where it is malformed.
pub fn parse(line: &[u8]) -> Option<Statement<'_>>
    ensures { option_map said result ≡ statement (words line.now) }
{
    let (word, rest) = first_word(line)?;
    let words = Words::new(rest);
    match read_verb(word)? {
        Verb::Plan => name_and_hex(words).map(|(name, hex)| Statement::Plan { name, hex }),
        Verb::Rewrite => name_alone(words).map(|name| Statement::Rewrite { name }),
        Verb::State => side_alone(words).map(|side| Statement::State { side }),
        Verb::Start => side_and_state(words).map(|(side, state)| Statement::Start { side, state }),
        Verb::End => side_and_state(words).map(|(side, state)| Statement::End { side, state }),
        Verb::Arrow => side_and_arrow(words).map(|(side, from, command, to)| Statement::Arrow {
            side,
            from,
            command,
            to,
        }),
        Verb::Lift => side_and_arrow(words).map(|(side, from, command, to)| Statement::Lift {
            side,
            from,
            command,
            to,
        }),
        Verb::Write => side_and_buffer(words).map(|(side, buffer)| Statement::Write {
            side,
            buffer,
        }),
        Verb::Show => show(words),
        Verb::Pairs => are_pairs(rest).then_some(Statement::Pairs { text: rest }),
        Verb::Deliver => hex_alone(words).map(|hex| Statement::Deliver { hex }),
        Verb::Rank => last(Statement::Rank, words),
        Verb::RankPlans => two_names(words).map(|(programme, rule)| Statement::RankPlans {
            programme,
            rule,
        }),
        Verb::Test => order_alone(words).map(|order| Statement::Test { order }),
        Verb::TestPlans => test_plans(words),
    }
}
