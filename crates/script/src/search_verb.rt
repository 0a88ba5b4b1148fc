ghost use Rattle.std.specs.Prelude.{◌≡◌};
ghost use Rattle.script.specs.SearchVerbs.{search_verb_of};

/// The first word of a statement about searches, about the release that they lead to, or about pictures of plans.
#[derive(Clone, Copy)]
pub(crate) enum SearchVerb {
    ComparePlans,
    OpenPlan,
    Slots,
    Compare,
    Open,
    Release,
    Draw,
}

// Stays: no plainer: `TryFrom` would hand out `()` as an error, which each caller would turn into `None` by `ok()`.
/// The verb that the word is, if it is one.
pub(crate) fn read_search_verb(word: &[u8]) -> Option<SearchVerb>
    ensures { result ≡ search_verb_of word.now }
{
    match word {
        b"compare-plans" => Some(SearchVerb::ComparePlans),
        b"open-plan" => Some(SearchVerb::OpenPlan),
        b"slots" => Some(SearchVerb::Slots),
        b"compare" => Some(SearchVerb::Compare),
        b"open" => Some(SearchVerb::Open),
        b"release" => Some(SearchVerb::Release),
        b"draw" => Some(SearchVerb::Draw),
        _ => None,
    }
}
