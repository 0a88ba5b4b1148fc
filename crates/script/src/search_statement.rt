ghost use Rattle.std.specs.Prelude.{◌≡◌};
ghost use Rattle.std.specs.Option.{option_map};
ghost use Rattle.script.specs.Words.{words, words_left};
ghost use Rattle.script.specs.SearchStatements.{search_said, search_behind, search_statement};

use crate::arguments::{PlanOrSide, count_and_terms, last, name, plan_or_side, terms};
use crate::search_verb::{SearchVerb, read_search_verb};
use crate::terms::Terms;
use crate::words::Words;

// Stays: an enum of its own, beside `Statement`. `parse` promises `None` for a line about searches.
/// A statement about searches, about the release that they lead to, or about pictures of plans. It borrows its names from
/// the line.
#[derive(Clone, Copy, Debug, PartialEq, Eq)]
pub enum SearchStatement<'a> {
    /// The comparison of two named plans by an order, with so many slots and bytes for the run.
    ComparePlans {
        programme: &'a [u8],
        rule: &'a [u8],
        terms: Terms,
    },
    /// Whether the named plan permits every run of so many commands.
    OpenPlan {
        name: &'a [u8],
        commands: u8,
        terms: Terms,
    },
    /// What the last search stored.
    Slots,
    /// The comparison of the two sides by an order, with so many slots and bytes for the run.
    Compare {
        terms: Terms,
    },
    /// Whether the rule permits every run of so many commands.
    Open {
        commands: u8,
        terms: Terms,
    },
    /// The release of the valves.
    Release,
    // Stays: no plainer: one case over `PlanOrSide` would make that type public and add a match in `search_said`.
    /// The named plan, as a picture.
    DrawPlan {
        name: &'a [u8],
    },
    /// The side, as a picture.
    DrawSide {
        side: u8,
    },
}

/// `compare-plans NAME NAME ORDER SLOTS [RUNBYTES]`
#[tactic(auto, unfolding(crate::specs::Arguments::two_names_and_search))]
fn compare_plans(mut words: Words<'_>) -> Option<SearchStatement<'_>>
    ensures { option_map search_said result ≡ search_behind SearchVerb.ComparePlans (words_left words.entry) }
{
    let programme = name(words.next()?)?;
    let rule = name(words.next()?)?;
    let terms = terms(words)?;
    Some(SearchStatement::ComparePlans {
        programme,
        rule,
        terms,
    })
}

/// `open-plan NAME K ORDER SLOTS [RUNBYTES]`
#[tactic(auto, unfolding(crate::specs::Arguments::name_count_and_search))]
fn open_plan(mut words: Words<'_>) -> Option<SearchStatement<'_>>
    ensures { option_map search_said result ≡ search_behind SearchVerb.OpenPlan (words_left words.entry) }
{
    let name = name(words.next()?)?;
    let (commands, terms) = count_and_terms(words)?;
    Some(SearchStatement::OpenPlan {
        name,
        commands,
        terms,
    })
}

/// `draw NAME` or `draw SIDE`
fn draw(words: Words<'_>) -> Option<SearchStatement<'_>>
    ensures { option_map search_said result ≡ search_behind SearchVerb.Draw (words_left words.entry) }
{
    plan_or_side(words).map(|subject| match subject {
        PlanOrSide::Plan(name) => SearchStatement::DrawPlan { name },
        PlanOrSide::Side(side) => SearchStatement::DrawSide { side },
    })
}

/// The statement about searches, release or pictures that the line is, or nothing where it is none or is malformed.
pub fn parse_search(line: &[u8]) -> Option<SearchStatement<'_>>
    ensures { option_map search_said result ≡ search_statement (words line.now) }
{
    let mut words = Words::new(line);
    match read_search_verb(words.next()?)? {
        SearchVerb::ComparePlans => compare_plans(words),
        SearchVerb::OpenPlan => open_plan(words),
        SearchVerb::Slots => last(SearchStatement::Slots, words),
        SearchVerb::Compare => terms(words).map(|terms| SearchStatement::Compare { terms }),
        SearchVerb::Open => count_and_terms(words).map(|(commands, terms)| SearchStatement::Open {
            commands,
            terms,
        }),
        SearchVerb::Release => last(SearchStatement::Release, words),
        SearchVerb::Draw => draw(words),
    }
}
