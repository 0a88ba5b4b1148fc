ghost use Rattle.std.specs.Prelude.{◌≡◌, ◌/◌, ◌%◌, ◌^◌, ◌==◌};
ghost use Rattle.std.specs.Iterator.{IsFinite};

use plan::refusal::Refusal;
use plan::table::Table;
use std::alloc::Global;

/// The set that has the state alone.
pub(crate) fn bit(state: u8) -> u32
    ensures { result ≡ 2 ^ (state % 32) }
{
    1 << (state % 32)
}

// Stays: the automata's `contains` does it too. The checker shares nothing with what it checks.
/// Whether the set has the state.
pub(crate) fn has(set: u32, state: u8) -> bool
    ensures { result ≡ ((set / 2 ^ (state % 32) % 2) == 1) }
{
    (set >> (state % 32)) % 2 == 1
}

/// The set of the states.
pub(crate) fn set_of<I: Iterator<Item = u8>>(states: I) -> u32
    requires { I.can_next states × IsFinite (I.remaining states) }
{
    states.fold(0, |set, state| set | bit(state))
}

/// An arrow: from one state, under a command, to another.
#[derive(Clone, Copy)]
pub(crate) struct Arrow {
    pub from: u8,
    pub command: u8,
    pub to: u8,
}

/// A plan as the checker has it: two sets, and the arrows as a plain list.
#[derive(Drop)]
pub(crate) struct Sketch {
    pub count: u8,
    pub starts: u32,
    pub ends: u32,
    pub arrows: Vec<Arrow>,
}

impl Sketch {
    /// So many states, neither starts nor ends, and no arrows.
    pub(crate) fn blank(heap: Global, count: u8) -> Sketch {
        Sketch {
            count,
            starts: 0,
            ends: 0,
            arrows: Vec::new(heap),
        }
    }

    /// The states to which arrows under the command lead from the states of the set.
    pub(crate) fn onward(&self, set: u32, command: u8) -> u32 {
        let arrows = self.arrows.iter();
        set_of(
            arrows
                .filter(|arrow| arrow.command == command && has(set, arrow.from))
                .map(|arrow| arrow.to),
        )
    }

    /// How many of the first commands have arrows, at least one.
    pub(crate) fn used_commands(&self) -> u8 {
        (0..26u8)
            .find(|command| self.onward(u32::MAX, *command) == 0)
            .map_or(26, |command| command.max(1))
    }

    /// Whether the run leads from a start to an end, followed as the exact set of states that it reaches.
    pub(crate) fn permits(&self, run: &[u8]) -> bool {
        let reached = run.iter().fold(
            self.starts,
            |reached, command| self.onward(reached, *command),
        );
        reached & self.ends != 0
    }
}

impl TryFrom<&Sketch> for Table {
    type Error = Refusal;

    fn try_from(sketch: &Sketch) -> Result<Table, Refusal> {
        let mut table = Table::new();
        for state in 0..sketch.count {
            table.add_state()?;
            if has(sketch.starts, state) {
                table.mark_start(state)?;
            }
            if has(sketch.ends, state) {
                table.mark_end(state)?;
            }
        }
        for arrow in sketch.arrows.iter() {
            table.draw_arrow(arrow.from, arrow.command, arrow.to)?;
        }
        Ok(table)
    }
}
