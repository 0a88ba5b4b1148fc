use crate::both::Both;
use crate::relation::{Relation, holds};
use crate::sketch::{Sketch, bit, has};
use plan::refusal::Refusal;

/// A programme and a rule side by side, with the numbers of a comparison: state s of the rule is number 32 + s.
pub(crate) type Sides<'a> = Both<&'a Sketch>;

impl<'a> Sides<'a> {
    /// The plan that the number is one of, and the state there.
    fn place(&self, p: u8) -> (&'a Sketch, u8) {
        if p < 32 {
            (self.programme, p)
        } else {
            (self.rule, p - 32)
        }
    }

    /// Whether the number is that of a state.
    fn exists(&self, p: u8) -> bool {
        let (plan, state) = self.place(p);
        state < plan.count
    }

    /// Whether the number is that of an end.
    fn is_end(&self, p: u8) -> bool {
        let (plan, state) = self.place(p);
        has(plan.ends, state)
    }

    /// The numbers to which arrows under the command lead from the number.
    fn targets(&self, p: u8, command: u8) -> u64 {
        let (plan, state) = self.place(p);
        let targets = u64::from(plan.onward(bit(state), command));
        if p < 32 { targets } else { targets << 32 }
    }

    /// The two plans under an order.
    pub(crate) fn under(&self, order: Relation) -> Ordered<'a> {
        Ordered {
            sides: *self,
            order,
        }
    }

    /// The greatest order: all pairs of states, narrowed until the last two laws hold.
    pub(crate) fn greatest(&self) -> Relation {
        let mut order = Relation::from_fn(|p, r| self.exists(p) && self.exists(r));
        // Each time at least one of at most 4,096 pairs goes.
        for _ in 0..5000u16 {
            let narrowed = self.under(order).narrowed();
            if narrowed == order {
                break;
            }
            order = narrowed;
        }
        order
    }
}

/// Two plans under an order between their states.
#[derive(Clone, Copy)]
pub(crate) struct Ordered<'a> {
    sides: Sides<'a>,
    order: Relation,
}

impl<'a> Ordered<'a> {
    /// Whether both are states, and the first is below the second.
    fn is_below(&self, p: u8, r: u8) -> bool {
        self.sides.exists(p) && self.order.has(p, r) && self.sides.exists(r)
    }

    /// Checks each two states of which the first is below the second.
    fn check_pairs<F: Fn(u8, u8) -> Result<(), Refusal>>(&self, check: F) -> Result<(), Refusal>
        requires { F.IsAlwaysCallable check }
    {
        for p in 0..64u8 {
            for r in 0..64u8 {
                if self.is_below(p, r) {
                    check(p, r)?;
                }
            }
        }
        Ok(())
    }

    /// The first law: each state is below itself.
    fn check_reflexive(&self) -> Result<(), Refusal> {
        (0..64u8)
            .find(|p| self.sides.exists(*p) && !self.order.has(*p, *p))
            .map_or(Ok(()), |p| Err(Refusal::NotReflexive { p }))
    }

    /// The second law: what is below a state is below all that the state is below.
    fn check_transitive(&self) -> Result<(), Refusal> {
        self.check_pairs(|p, q| {
            (0..64u8)
                .find(|r| self.is_below(q, *r) && !self.order.has(p, *r))
                .map_or(Ok(()), |r| Err(Refusal::NotTransitive { p, q, r }))
        })
    }

    /// The third law at two states: where `p` is an end, so is `r`.
    fn check_end(&self, p: u8, r: u8) -> Result<(), Refusal> {
        if self.sides.is_end(p) && !self.sides.is_end(r) {
            Err(Refusal::EndNotKept { p, r })
        } else {
            Ok(())
        }
    }

    /// The first target of `p` under the command that is below no target of `r` under it.
    fn unmatched(&self, p: u8, r: u8, command: u8) -> Option<u8> {
        let targets = self.sides.targets(p, command);
        if targets == 0 {
            return None;
        }
        let answers = self.sides.targets(r, command);
        (0..64u8).find(|t| holds(targets, *t) && self.order.above(*t) & answers == 0)
    }

    /// The fourth law at two states: each target of `p` is below a target of `r` under the same command.
    fn check_targets(&self, p: u8, r: u8) -> Result<(), Refusal> {
        for command in 0..26u8 {
            if let Some(target) = self.unmatched(p, r, command) {
                return Err(Refusal::ArrowNotMatched {
                    p,
                    r,
                    command,
                    target,
                });
            }
        }
        Ok(())
    }

    /// Checks the four laws, law by law and each by its definition: the refusal is the first offence.
    pub(crate) fn check(&self) -> Result<(), Refusal> {
        self.check_reflexive()?;
        self.check_transitive()?;
        self.check_pairs(|p, r| self.check_end(p, r))?;
        self.check_pairs(|p, r| self.check_targets(p, r))
    }

    /// The order without the pairs that break one of the last two laws.
    fn narrowed(&self) -> Relation {
        Relation::from_fn(|p, r| {
            self.order.has(p, r) && self.check_end(p, r).is_ok() && self.check_targets(p, r).is_ok()
        })
    }

    /// Whether each start of the programme is below some start of the rule.
    pub(crate) fn are_starts_below(&self) -> bool {
        let answers = u64::from(self.sides.rule.starts) << 32;
        (0..32u8).all(|p| {
            !has(self.sides.programme.starts, p) || self.order.above(p) & answers != 0
        })
    }
}
