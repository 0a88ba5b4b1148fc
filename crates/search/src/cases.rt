ghost use Rattle.std.specs.Prelude.{◌≡◌};
ghost use Rattle.search.specs.Cases.{Cases};

/// How many worked cases of the definitions there are: `specs/Cases.antt` has them, each proved by computing.
pub fn worked_cases() -> usize
    ensures hold { Cases }
    ensures number { result ≡ 13 }
{
    13
}
