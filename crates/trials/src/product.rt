use crate::sketch::{Sketch, has};
use std::alloc::{AllocError, Global};
use std::collections::BTreeSet;

/// A state of the product: a programme state and the exact set of rule states that one run leads to.
#[derive(Clone, Copy, PartialEq, Eq, PartialOrd, Ord)]
struct Node {
    state: u8,
    states: u32,
}

/// The product of a programme and the complete determinisation of a rule, with the nodes that are reached so far.
#[derive(Drop)]
struct Product<'a> {
    programme: &'a Sketch,
    rule: &'a Sketch,
    reached: BTreeSet<Node>,
}

impl<'a> Product<'a> {
    /// Adds a node to the level, unless it was reached before.
    fn reach(&mut self, node: Node, level: &mut Vec<Node>) -> Result<(), AllocError> {
        if self.reached.insert(node)? {
            level.push(node)?;
        }
        Ok(())
    }

    /// The nodes of the empty run.
    fn roots(&mut self, heap: Global) -> Result<Vec<Node>, AllocError> {
        let mut level = Vec::new(heap);
        for state in 0..self.programme.count {
            if has(self.programme.starts, state) {
                let states = self.rule.starts;
                self.reach(Node { state, states }, &mut level)?;
            }
        }
        Ok(level)
    }

    /// The nodes to which one command leads from those of a level, and no fewer commands do.
    fn next_level(&mut self, heap: Global, level: &[Node]) -> Result<Vec<Node>, AllocError> {
        let mut next = Vec::new(heap);
        for node in level {
            for arrow in self.programme.arrows.iter() {
                if arrow.from == node.state {
                    let states = self.rule.onward(node.states, arrow.command);
                    let state = arrow.to;
                    self.reach(Node { state, states }, &mut next)?;
                }
            }
        }
        Ok(next)
    }

    /// Whether the runs that lead to the node are permitted by the programme and not by the rule.
    fn is_missed(&self, node: Node) -> bool {
        has(self.programme.ends, node.state) && node.states & self.rule.ends == 0
    }
}

/// The length of a shortest run that the programme permits and the rule does not, or none where there is no such run.
///
/// Breadth-first over the product of the programme and the complete determinisation of the rule: pairs of a programme
/// state and an exact set of rule states, with no reduction, no order and no covering.
pub(crate) fn shortest_missed(
    heap: Global,
    programme: &Sketch,
    rule: &Sketch,
) -> Result<Option<usize>, AllocError> {
    let mut product = Product {
        programme,
        rule,
        reached: BTreeSet::new(heap),
    };
    let mut level = product.roots(heap)?;
    for length in 0..usize::MAX {
        if level.is_empty() {
            break;
        }
        if level.iter().any(|node| product.is_missed(*node)) {
            return Ok(Some(length));
        }
        level = product.next_level(heap, level.as_slice())?;
    }
    Ok(None)
}
