ghost use Rattle.std.specs.Prelude.{◌≡◌};
ghost use Rattle.guard.specs.Transitions.{followed};

use crate::guard::Guard;
use calls::standing::Standing;
use plan::refusal::Refusal;
use walk::verdict::Verdict;

/// What a call that nothing speaks against asks of the standing.
#[derive(Clone, Copy, Debug, PartialEq, Eq)]
pub(crate) enum Event {
    /// Something is drawn.
    Drawing,
    /// The plans were compared, with this verdict.
    Compare(Verdict),
    /// The valves are to be released.
    Release,
}

impl Guard {
    /// The standing that follows. Release is granted where the guard stands at passed, and leaves it there.
    pub(crate) fn follow(&self, call: Event) -> Result<Standing, Refusal>
        ensures { result ≡ followed self.now.standing call }
    {
        match (self.standing, call) {
            (_, Event::Drawing) => Ok(Standing::Drawn),
            (_, Event::Compare(Verdict::Passed)) => Ok(Standing::Passed),
            (_, Event::Compare(Verdict::Failed)) => Ok(Standing::Failed),
            (_, Event::Compare(Verdict::Full)) => Ok(Standing::Full),
            (Standing::Passed, Event::Release) => Ok(Standing::Passed),
            (Standing::Drawn, Event::Release) => Err(Refusal::NotCompared),
            (Standing::Failed, Event::Release) => Err(Refusal::ComparisonFailed),
            (Standing::Full, Event::Release) => Err(Refusal::ComparisonFull),
        }
    }
}
