ghost use Rattle.std.specs.Prelude.{◌≡◌};
ghost use Rattle.script.specs.Verbs.{verb_of};

/// The first word of a statement.
#[derive(Clone, Copy)]
pub(crate) enum Verb {
    Plan,
    Rewrite,
    State,
    Start,
    End,
    Arrow,
    Lift,
    Write,
    Show,
    Pairs,
    Deliver,
    Rank,
    RankPlans,
    Test,
    TestPlans,
}

// Stays: no plainer: `TryFrom` would hand out `()` as an error, which each caller would turn into `None` by `ok()`.
/// The verb that the word is, if it is one.
pub(crate) fn read_verb(word: &[u8]) -> Option<Verb>
    ensures { result ≡ verb_of word.now }
{
    match word {
        b"plan" => Some(Verb::Plan),
        b"rewrite" => Some(Verb::Rewrite),
        b"state" => Some(Verb::State),
        b"start" => Some(Verb::Start),
        b"end" => Some(Verb::End),
        b"arrow" => Some(Verb::Arrow),
        b"lift" => Some(Verb::Lift),
        b"write" => Some(Verb::Write),
        b"show" => Some(Verb::Show),
        b"pairs" => Some(Verb::Pairs),
        b"deliver" => Some(Verb::Deliver),
        b"rank" => Some(Verb::Rank),
        b"rank-plans" => Some(Verb::RankPlans),
        b"test" => Some(Verb::Test),
        b"test-plans" => Some(Verb::TestPlans),
        _ => None,
    }
}
