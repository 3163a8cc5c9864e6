//! Where the bounds of classes are written: each at the lowest node above all leaves that use it.

use crate::leaf::CellLeaf;
use crate::tree::CellTree;
use near_programs::node::sign_at;
use near_programs::numbers::whole_at;
use near_programs::tree::TreeNode;
use std::alloc::{AllocError, Global};

// A node's parent, and how many nodes are above it.
#[derive(Clone, Copy)]
struct Above {
    parent: usize,
    depth: usize,
}

/// The bounds that stand at each node: the first of the node, and for each bound the next.
#[derive(Drop)]
pub struct Placed {
    above: Vec<Above>,
    lowest: Vec<Option<usize>>,
    first: Vec<Option<usize>>,
    next: Vec<Option<usize>>,
}

fn place_at(places: &[Option<usize>], i: usize) -> Option<usize> {
    match places.get(i) {
        Some(place) => *place,
        None => None,
    }
}

fn set_place(places: &mut [Option<usize>], i: usize, place: Option<usize>) {
    if let Some(old) = places.get_mut(i) {
        *old = place;
    }
}

fn set_above(all: &mut [Above], i: usize, above: Above) {
    if let Some(old) = all.get_mut(i) {
        *old = above;
    }
}

// The parents of all nodes. Sides stand behind their node.
fn parents_of(alloc: Global, nodes: &[TreeNode]) -> Result<Vec<Above>, AllocError> {
    let root = Above {
        parent: 0,
        depth: 0,
    };
    let mut all = vec![in alloc; root; nodes.len()]?;
    for (i, node) in nodes.iter().enumerate() {
        if let TreeNode::Split {
            place: _,
            plus,
            minus,
        } = node
        {
            let depth = depth_at(&all, i).saturating_add(1);
            let above = Above { parent: i, depth };
            set_above(&mut all, *plus, above);
            set_above(&mut all, *minus, above);
        }
    }
    Ok(all)
}

fn depth_at(all: &[Above], i: usize) -> usize {
    match all.get(i) {
        Some(above) => above.depth,
        None => 0,
    }
}

fn parent_at(all: &[Above], i: usize) -> usize {
    match all.get(i) {
        Some(above) => above.parent,
        None => 0,
    }
}

// The lowest node above both.
fn lowest_above(all: &[Above], first: usize, second: usize) -> usize {
    let mut a = first;
    let mut b = second;
    for _ in 0..all.len().saturating_mul(2) {
        if a == b {
            break;
        }
        if depth_at(all, a) >= depth_at(all, b) {
            a = parent_at(all, a);
        } else {
            b = parent_at(all, b);
        }
    }
    a
}

impl Placed {
    /// Where the bounds stand that the leaves of a tree use, with these kinks in units. The error is
    /// want of memory.
    pub fn new(alloc: Global, tree: &CellTree, kinks: &[i128]) -> Result<Placed, AllocError> {
        let mut placed = Placed {
            above: parents_of(alloc, &tree.nodes)?,
            lowest: vec![in alloc; None; tree.bounds.len()]?,
            first: vec![in alloc; None; tree.nodes.len()]?,
            next: vec![in alloc; None; tree.bounds.len()]?,
        };
        for leaf in tree.leaves.iter() {
            if !leaf.is_split {
                placed.add_leaf(leaf, kinks);
            }
        }
        placed.list_all();
        Ok(placed)
    }

    // Adds the bounds that a leaf uses.
    fn add_leaf(&mut self, leaf: &CellLeaf, kinks: &[i128]) {
        for (class, bound) in leaf.bounds.iter().enumerate() {
            let is_used = whole_at(kinks, class) > 0 && sign_at(&leaf.signs, class) == 0;
            if let Some(bound) = bound {
                if is_used {
                    self.add_use(*bound, leaf.node);
                }
            }
        }
    }

    // Adds the use of a bound at a node.
    fn add_use(&mut self, bound: usize, node: usize) {
        let lowest = match place_at(&self.lowest, bound) {
            Some(before) => lowest_above(&self.above, before, node),
            None => node,
        };
        set_place(&mut self.lowest, bound, Some(lowest));
    }

    // Lists the bounds of each node.
    fn list_all(&mut self) {
        for bound in (0..self.lowest.len()).rev() {
            if let Some(node) = place_at(&self.lowest, bound) {
                let next = place_at(&self.first, node);
                set_place(&mut self.next, bound, next);
                set_place(&mut self.first, node, Some(bound));
            }
        }
    }

    /// The first bound that stands at a node.
    pub fn first_at(&self, node: usize) -> Option<usize> {
        place_at(&self.first, node)
    }

    /// The next bound that stands at the node of a bound.
    pub fn next_of(&self, bound: usize) -> Option<usize> {
        place_at(&self.next, bound)
    }
}
