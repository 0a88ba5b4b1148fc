ghost use Rattle.std.specs.Prelude.{ℕ};
ghost use Rattle.automata.specs.Relations.{listed};
ghost use Rattle.automata.specs.Refining.{Sources};

use crate::sets::Members;

/// For each number and command the numbers that have an arrow under the command to the number.
pub(crate) fn sources(targets: &[u64; 1664]) -> [u64; 1664]
    ensures { (ends : ℕ) → Sources result (listed ends targets.now) }
{
    let mut sources = [0; 1664];
    for (place, set) in targets.iter().enumerate() {
        for t in Members(*set) {
            sources[t as usize * 26 + place % 26] |= 1 << (place / 26);
        }
    }
    sources
}
