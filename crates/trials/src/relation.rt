use order::interface::Order;
use std::alloc::{AllocError, Global};

// Stays: the order's own test of a row does it too. The checker shares nothing with what it checks.
/// Whether a set of numbers below 64 has the number.
pub(crate) fn holds(set: u64, number: u8) -> bool {
    number < 64 && (set >> number) % 2 == 1
}

/// A relation between the numbers below 64, as the checker has it: bit r of row p says whether it has the pair (p, r).
#[derive(Clone, Copy, PartialEq, Eq)]
pub(crate) struct Relation {
    rows: [u64; 64],
}

impl Relation {
    /// The relation of the pairs that are answered yes. Each is asked once, row by row.
    pub(crate) fn from_fn<F: FnMut(u8, u8) -> bool>(mut answer: F) -> Relation
        requires { F.IsAlwaysCallable answer }
    {
        let mut relation = Relation { rows: [0; 64] };
        for p in 0..64u8 {
            for r in 0..64u8 {
                if answer(p, r) {
                    relation.add(p, r);
                }
            }
        }
        relation
    }

    /// The relation that an order's answers make.
    pub(crate) fn of<O: Order>(order: &O) -> Relation {
        Relation::from_fn(|p, r| order.is_below(p, r))
    }

    /// The numbers that `p` is below.
    pub(crate) fn above(&self, p: u8) -> u64 {
        self.rows.get(p as usize).copied().unwrap_or(0)
    }

    /// Whether it has the pair.
    pub(crate) fn has(&self, p: u8, r: u8) -> bool {
        holds(self.above(p), r)
    }

    /// Adds the pair.
    pub(crate) fn add(&mut self, p: u8, r: u8) {
        if p < 64 && r < 64 {
            self.rows[p as usize] |= 1 << r;
        }
    }

    /// Takes the pair out.
    pub(crate) fn remove(&mut self, p: u8, r: u8) {
        if p < 64 && r < 64 {
            self.rows[p as usize] &= !(1 << r);
        }
    }

    /// The relation with the pairs that transitivity calls for.
    pub(crate) fn closed(self) -> Relation {
        let mut more = self;
        for q in 0..64u8 {
            let onward = more.above(q);
            for row in more.rows.iter_mut() {
                if holds(*row, q) {
                    *row |= onward;
                }
            }
        }
        more
    }

    /// The rows as bytes, the low byte of each first: 512 bytes, as an order is delivered.
    pub(crate) fn bytes(&self, heap: Global) -> Result<Vec<u8>, AllocError> {
        self.rows
            .iter()
            .flat_map(|row| row.to_le_bytes())
            .collect(heap)
    }
}
