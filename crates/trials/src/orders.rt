use crate::drawing::Draughtsman;
use crate::relation::Relation;
use crate::sides::Sides;
use plan::refusal::Refusal;
use std::alloc::AllocError;

/// The orders, besides the order same, that questions are asked under: the greatest one, and the bytes of a delivered one
/// that was mended and of one that was not.
#[derive(Drop)]
pub(crate) struct Orders {
    pub greatest: [u64; 64],
    pub mended: Vec<u8>,
    pub drawn: Vec<u8>,
}

/// Mends a law that is broken: adds the pair of a state with itself, or takes a pair out.
fn mend(order: &mut Relation, offence: Refusal) {
    match offence {
        Refusal::NotReflexive { p } => order.add(p, p),
        Refusal::NotTransitive { p, q, .. } => order.remove(p, q),
        Refusal::EndNotKept { p, r } => order.remove(p, r),
        Refusal::ArrowNotMatched { p, r, .. } => order.remove(p, r),
        _ => {}
    }
}

/// The relation with offending pairs taken out, one after the other, until the four laws hold.
fn mended(sides: &Sides<'_>, order: Relation) -> Relation {
    let mut left = order;
    for _ in 0..5000u16 {
        let Err(offence) = sides.under(left).check() else {
            break;
        };
        mend(&mut left, offence);
    }
    left
}

impl Draughtsman {
    /// The relation without some of its pairs, each left out with so many chances out of a hundred.
    fn thinned(&mut self, order: Relation, percent: u8) -> Relation {
        let random = &mut self.random;
        Relation::from_fn(|p, r| order.has(p, r) && !random.chance(percent))
    }

    /// The number of some state of either side, now and then one behind the last state.
    fn some_number(&mut self, sides: &Sides<'_>) -> u8 {
        if self.random.chance(50) {
            self.random.below(sides.programme.count.saturating_add(1))
        } else {
            self.random
                .below(sides.rule.count.saturating_add(1))
                .saturating_add(32)
        }
    }

    /// The relation with so many pairs more, most of them of states.
    fn thickened(&mut self, sides: &Sides<'_>, order: Relation, pairs: u8) -> Relation {
        let mut more = order;
        for _ in 0..pairs {
            let p = self.some_number(sides);
            let r = self.some_number(sides);
            more.add(p, r);
        }
        more
    }

    /// An order that keeps the four laws: the greatest order, thinned out, with a few pairs more, and mended.
    fn lawful_order(&mut self, sides: &Sides<'_>, greatest: Relation) -> Relation {
        let fewer = self.thinned(greatest, 30);
        let more = self.thickened(sides, fewer, 4);
        mended(sides, more)
    }

    /// An order that may break any law: a lawful order with pairs more or fewer.
    fn any_order(&mut self, sides: &Sides<'_>, lawful: Relation) -> Relation {
        match self.random.below(5) {
            0 => self.thinned(lawful, 10),
            1 => self.thickened(sides, lawful, 3),
            2 => self.thickened(sides, lawful, 20),
            3 => self.thickened(sides, lawful, 3).closed(),
            _ => self.thickened(sides, lawful, 1).closed(),
        }
    }

    /// The orders that questions about two plans are asked under.
    pub(crate) fn orders(
        &mut self,
        sides: &Sides<'_>,
        greatest: [u64; 64],
    ) -> Result<Orders, AllocError> {
        let lawful = self.lawful_order(sides, Relation::of(&greatest));
        let any = self.any_order(sides, lawful);
        Ok(Orders {
            greatest,
            mended: lawful.bytes(self.heap)?,
            drawn: any.bytes(self.heap)?,
        })
    }
}
