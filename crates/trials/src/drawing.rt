ghost use Rattle.std.specs.Prelude.{◌<◌};

use crate::both::Both;
use crate::random::Random;
use crate::sketch::{Arrow, Sketch, bit, has, set_of};
use std::alloc::{AllocError, Global};

/// How many chances out of a hundred each state has to be a start and an end, and each arrow to be drawn.
#[derive(Clone, Copy)]
struct Chances {
    starts: u8,
    ends: u8,
    arrows: u8,
}

/// What plans and orders are drawn with: the numbers of a seed, and the commands that arrows may have.
#[derive(Drop)]
pub(crate) struct Draughtsman {
    pub heap: Global,
    pub random: Random,
    commands: &'static [u8],
}

impl Draughtsman {
    /// The one who draws from a seed.
    pub(crate) fn new(heap: Global, seed: u64) -> Draughtsman {
        let mut random = Random::new(seed);
        let commands = alphabet(&mut random);
        Draughtsman {
            heap,
            random,
            commands,
        }
    }

    /// A set of states below the count, in which each is with so many chances out of a hundred.
    fn some_states(&mut self, count: u8, percent: u8) -> u32 {
        let random = &mut self.random;
        set_of((0..count).filter(|_| random.chance(percent)))
    }

    /// Draws each arrow under the commands with so many chances out of a hundred.
    fn scatter(&mut self, sketch: &mut Sketch, percent: u8) -> Result<(), AllocError> {
        for command in self.commands {
            for from in 0..sketch.count {
                for to in 0..sketch.count {
                    if self.random.chance(percent) {
                        let command = *command;
                        sketch.arrows.push(Arrow { from, command, to })?;
                    }
                }
            }
        }
        Ok(())
    }

    /// Chances of plans that permit few runs or many.
    fn some_chances(&mut self) -> Chances {
        if self.random.chance(30) {
            Chances {
                starts: 60,
                ends: 85,
                arrows: self.random.below(100),
            }
        } else {
            Chances {
                starts: 40,
                ends: 60,
                arrows: self.random.below(50),
            }
        }
    }

    /// A plan of up to six states.
    fn plan(&mut self, chances: Chances) -> Result<Sketch, AllocError> {
        let count = self.random.below(7);
        let mut sketch = Sketch::blank(self.heap, count);
        sketch.starts = self.some_states(count, chances.starts);
        sketch.ends = self.some_states(count, chances.ends);
        self.scatter(&mut sketch, chances.arrows)?;
        Ok(sketch)
    }

    /// A plan that permits few runs or many.
    fn any_plan(&mut self) -> Result<Sketch, AllocError> {
        let chances = self.some_chances();
        self.plan(chances)
    }

    /// A programme and a rule, each drawn by itself.
    fn apart(&mut self) -> Result<Both<Sketch>, AllocError> {
        Ok(Both {
            programme: self.any_plan()?,
            rule: self.any_plan()?,
        })
    }

    /// A programme of few ends and a rule of many, so that a run that the rule does not permit is seldom a short one.
    fn late(&mut self) -> Result<Both<Sketch>, AllocError> {
        let few = Chances {
            starts: 60,
            ends: 25,
            arrows: 10 + self.random.below(30),
        };
        let many = Chances {
            starts: 70,
            ends: 80,
            arrows: 15 + self.random.below(45),
        };
        Ok(Both {
            programme: self.plan(few)?,
            rule: self.plan(many)?,
        })
    }

    /// None in half of all cases, else some chances below the limit.
    fn none_or_some(&mut self, limit: u8) -> u8 {
        if self.random.chance(50) {
            0
        } else {
            self.random.below(limit)
        }
    }

    /// A copy of the plan in which each state has the next number and the last one number 0, and in which each arrow is
    /// left out with so many chances out of a hundred.
    fn turned(&mut self, plan: &Sketch, percent: u8) -> Result<Sketch, AllocError> {
        let mut copy = Sketch::blank(self.heap, plan.count);
        copy.starts = turn_set(plan.starts, plan.count);
        copy.ends = turn_set(plan.ends, plan.count);
        for arrow in plan.arrows.iter() {
            if !self.random.chance(percent) {
                copy.arrows.push(Arrow {
                    from: turn_state(arrow.from, plan.count),
                    command: arrow.command,
                    to: turn_state(arrow.to, plan.count),
                })?;
            }
        }
        Ok(copy)
    }

    /// A programme, and a rule that is nearly the same plan with other numbers.
    fn alike(&mut self) -> Result<Both<Sketch>, AllocError> {
        let programme = self.any_plan()?;
        let fewer = self.none_or_some(30);
        let more = self.none_or_some(20);
        let mut rule = self.turned(&programme, fewer)?;
        self.scatter(&mut rule, more)?;
        Ok(Both { programme, rule })
    }

    /// Draws a ring of so many states, from the first one on, and has all but one of them be ends.
    fn ring(
        &mut self,
        sketch: &mut Sketch,
        first: u8,
        size: u8,
        command: u8,
    ) -> Result<(), AllocError> {
        let gap = self.random.below(size);
        sketch.starts |= bit(first);
        for k in 0..size {
            let from = first.wrapping_add(k);
            let to = first.wrapping_add((k + 1) % size);
            sketch.arrows.push(Arrow { from, command, to })?;
            if k != gap {
                sketch.ends |= bit(from);
            }
        }
        Ok(())
    }

    /// A programme that is one ring under one command, and a rule of two: a run that the rule does not permit is long.
    fn rings(&mut self) -> Result<Both<Sketch>, AllocError> {
        let command = if self.random.chance(20) { 25 } else { 0 };
        let size = 1 + self.random.below(6);
        let mut programme = Sketch::blank(self.heap, size);
        self.ring(&mut programme, 0, size, command)?;
        programme.ends = self.some_states(size, 70);
        let first = 1 + self.random.below(3);
        let second = 1 + self.random.below(4);
        let mut rule = Sketch::blank(self.heap, first.wrapping_add(second));
        self.ring(&mut rule, 0, first, command)?;
        self.ring(&mut rule, first, second, command)?;
        Ok(Both { programme, rule })
    }

    /// A programme and a rule, in one of the four ways.
    pub(crate) fn sketches(&mut self) -> Result<Both<Sketch>, AllocError> {
        match self.random.below(10) {
            0 => self.rings(),
            1..=3 => self.alike(),
            4..=6 => self.apart(),
            _ => self.late(),
        }
    }

    /// How many commands the rule is asked to be open for, most often those that it has arrows under.
    pub(crate) fn some_commands(&mut self, rule: &Sketch) -> u8 {
        if self.random.chance(70) {
            rule.used_commands()
        } else if self.random.chance(20) {
            26
        } else {
            1 + self.random.below(3)
        }
    }
}

/// The commands that arrows may have: none to three of them, some with the last command that there is.
fn alphabet(random: &mut Random) -> &'static [u8] {
    match random.below(12) {
        0 => &[],
        1..=2 => &[0],
        3..=6 => &[0, 1],
        7..=9 => &[0, 1, 2],
        10 => &[25],
        _ => &[0, 25],
    }
}

/// The next state, and behind the last one the first.
fn turn_state(state: u8, count: u8) -> u8
    ensures { 0 < count → result < count }
{
    let next = state.saturating_add(1);
    if next < count { next } else { 0 }
}

/// The states behind those of the set.
fn turn_set(set: u32, count: u8) -> u32 {
    set_of(
        (0..count)
            .filter(|state| has(set, *state))
            .map(|state| turn_state(state, count)),
    )
}

/// The plan of one state that permits every run of the first commands.
pub(crate) fn every_run(heap: Global, commands: u8) -> Result<Sketch, AllocError> {
    let mut sketch = Sketch::blank(heap, 1);
    sketch.starts = bit(0);
    sketch.ends = bit(0);
    for command in 0..commands {
        sketch.arrows.push(Arrow {
            from: 0,
            command,
            to: 0,
        })?;
    }
    Ok(sketch)
}
