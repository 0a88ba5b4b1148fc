ghost use Rattle.std.specs.Prelude.{◌≡◌, ℕ, ◌+◌, ◌*◌, ◌/◌, ◌%◌, ◌^◌, ◌<◌, ◌≤◌, length, nat_lt, replicate, slice_index};
ghost use Rattle.automata.specs.Sets.{has};
ghost use Rattle.automata.specs.Numbering.{beside};
ghost use Rattle.order.specs.Sides.{TakesDown};

use plan::interface::Plan;

/// The two plans of a comparison, taken down once under one numbering.
#[derive(Drop)]
pub(crate) struct Sides {
    /// The numbers of the existing states.
    pub(crate) states: u64,
    /// The numbers of the ends.
    pub(crate) ends: u64,
    /// The targets of each number under each command, 26 sets for each number.
    // Stays: no plainer, here and for `sources`: definitions read such a table by the place `s * 26 + command`, and rows of
    // 26 would be flattened for them.
    pub(crate) targets: [u64; 1664],
}

impl Sides {
    /// Takes both plans down.
    pub(crate) fn of<P: Plan, R: Plan>(programme: &P, rule: &R) -> Sides
        ensures { TakesDown result (P.Plan.meaning programme.now) (R.Plan.meaning rule.now) }
    {
        Sides {
            states: first(programme.count()) | first(rule.count()) << 32,
            ends: u64::from(programme.ends()) | u64::from(rule.ends()) << 32,
            targets: targets(programme, rule),
        }
    }
}

/// The numbers below `n`.
fn first(n: u8) -> u64
    requires { n ≤ 32 }
    ensures low { result < 2 ^ 32 }
    ensures those { (k : ℕ) → has result k ≡ nat_lt k n }
{
    (1 << n) - 1
}

/// Puts a plan's targets into its half of the table, each number of a target moved up by `shift`: the targets of state s
/// under command c at place s * 26 + c. A state that does not exist has none, and the plan is not asked.
fn put_targets<P: Plan>(plan: &P, shift: u32, half: &mut [u64])
    requires blank { half.old ≡ replicate 832 0 }
    requires room { shift ≤ 32 }
    ensures size { length half.new ≡ 832 }
    ensures cells { (k : ℕ) → k < 832 → slice_index half.new k ≡ (P.Plan.meaning plan.now).targets (k / 26) (k % 26) * 2 ^ shift }
{
    let places = 26 * plan.count() as usize;
    for (k, set) in half[..places].iter_mut().enumerate() {
        *set = u64::from(plan.targets((k / 26) as u8, (k % 26) as u8)) << shift;
    }
}

/// The targets of each number under each command, as a table of 26 sets for each number.
fn targets<P: Plan, R: Plan>(programme: &P, rule: &R) -> [u64; 1664]
    ensures size { length result ≡ 1664 }
    ensures cells { (s c : ℕ) → s < 64 → c < 26 → slice_index result (s * 26 + c) ≡ (beside (P.Plan.meaning programme.now) (R.Plan.meaning rule.now)).targets s c }
{
    let mut table = [0; 1664];
    let (low, high) = table.split_at_mut(832);
    put_targets(programme, 0, low);
    put_targets(rule, 32, high);
    table
}
