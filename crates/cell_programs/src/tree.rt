//! The tree over classes, as it grows: the leaf of greatest excess first.

use crate::bounds::Bound;
use crate::leaf::{CellAim, CellLeaf};
use near_programs::NearState;
use near_programs::opens::{Open, open_by, take_greatest, violated, with_sign};
use near_programs::tree::TreeNode;
use std::alloc::{AllocError, Global};

// The most looks at open leaves in a round.
const MOST_LOOKS: u32 = 200_000;
// The most violated states that a round gathers.
const MOST_STATES: usize = 30;

/// How far a search may go: the most work, which is the number of entries that turns of tables go
/// over, and the most nodes of a tree.
#[derive(Clone, Copy)]
pub struct Caps {
    pub work: u64,
    pub nodes: usize,
}

/// A tree over classes: its nodes, of which the first is the root, its leaves, those that were split
/// among them, and the bounds that leaves have.
#[derive(Drop)]
pub struct CellTree {
    alloc: Global,
    pub nodes: Vec<TreeNode>,
    pub leaves: Vec<CellLeaf>,
    pub bounds: Vec<Bound>,
    /// Whether it was to have more nodes than it may have, or cost more work.
    pub is_full: bool,
    /// What it cost so far.
    pub work: u64,
}

// The node of a leaf that is split, and both sides.
#[derive(Drop)]
struct Sides {
    node: usize,
    plus: CellLeaf,
    minus: CellLeaf,
}

// The leaf on a side of a leaf, at a class that got this sign.
fn side_of(alloc: Global, leaf: &CellLeaf, class: usize, sign: i8) -> Result<CellLeaf, AllocError> {
    let mut signed = leaf.signed.clone()?;
    signed.push(class)?;
    Ok(CellLeaf {
        node: 0,
        signs: with_sign(alloc, &leaf.signs, class, sign)?,
        signed,
        bounds: leaf.bounds.clone()?,
        multipliers: Vec::new(alloc),
        last_point: leaf.last_point,
        is_split: false,
    })
}

impl CellTree {
    /// A tree of one leaf without signs, over so many classes. The error is want of memory.
    pub fn new(alloc: Global, classes: usize) -> Result<CellTree, AllocError> {
        let mut tree = CellTree {
            alloc,
            nodes: Vec::new(alloc),
            leaves: Vec::new(alloc),
            bounds: Vec::new(alloc),
            is_full: false,
            work: 0,
        };
        let root = CellLeaf {
            node: 0,
            signs: vec![in alloc; 0i8; classes]?,
            signed: Vec::new(alloc),
            bounds: vec![in alloc; None; classes]?,
            multipliers: Vec::new(alloc),
            last_point: None,
            is_split: false,
        };
        let _ = tree.add_leaf(root)?;
        Ok(tree)
    }

    // Adds a leaf and its node, and answers the leaf's place.
    fn add_leaf(&mut self, mut added: CellLeaf) -> Result<usize, AllocError> {
        let leaf = self.leaves.len();
        added.node = self.nodes.len();
        self.nodes.push(TreeNode::Leaf { leaf })?;
        self.leaves.push(added)?;
        Ok(leaf)
    }

    // Looks at a leaf, and lists it where it is open.
    fn look_at(
        &mut self,
        aim: CellAim,
        place: usize,
        opens: &mut Vec<Open>,
    ) -> Result<(), AllocError> {
        let Some(leaf) = self.leaves.get_mut(place) else {
            return Ok(());
        };
        let Some(found) = leaf.look(aim, &mut self.bounds, &mut self.work)? else {
            return Ok(());
        };
        if let Some(open) = open_by(aim.aim, place, &found) {
            opens.push(open)?;
        }
        Ok(())
    }

    // Looks at all leaves, and lists those that are open.
    fn look_at_all(&mut self, aim: CellAim) -> Result<Vec<Open>, AllocError> {
        let mut opens = Vec::new(self.alloc);
        for place in 0..self.leaves.len() {
            self.look_at(aim, place, &mut opens)?;
        }
        Ok(opens)
    }

    // The node and both sides of a leaf that is split from now on, and has no bounds any more.
    fn sides(&mut self, place: usize, class: usize) -> Result<Option<Sides>, AllocError> {
        let alloc = self.alloc;
        let Some(leaf) = self.leaves.get_mut(place) else {
            return Ok(None);
        };
        let plus = side_of(alloc, leaf, class, 1)?;
        let minus = side_of(alloc, leaf, class, -1)?;
        leaf.is_split = true;
        leaf.bounds = Vec::new(alloc);
        Ok(Some(Sides {
            node: leaf.node,
            plus,
            minus,
        }))
    }

    // Splits a leaf at a class, and looks at both sides.
    fn split(
        &mut self,
        aim: CellAim,
        leaf: usize,
        class: usize,
        opens: &mut Vec<Open>,
    ) -> Result<(), AllocError> {
        let Some(sides) = self.sides(leaf, class)? else {
            return Ok(());
        };
        let plus = self.nodes.len();
        let plus_leaf = self.add_leaf(sides.plus)?;
        let minus = self.nodes.len();
        let minus_leaf = self.add_leaf(sides.minus)?;
        if let Some(node) = self.nodes.get_mut(sides.node) {
            *node = TreeNode::Split {
                place: class,
                plus,
                minus,
            };
        }
        self.look_at(aim, plus_leaf, opens)?;
        self.look_at(aim, minus_leaf, opens)
    }

    // The class at which an open leaf is split.
    fn split_class(&self, aim: CellAim, open: &Open) -> Result<Option<usize>, AllocError> {
        match self.leaves.get(open.leaf) {
            Some(leaf) => leaf.split_class(aim, &self.bounds, &open.point),
            None => Ok(None),
        }
    }

    // Works on one open leaf: its state goes to the list, or it is split. Answers whether to go on.
    fn work_on(
        &mut self,
        aim: CellAim,
        caps: Caps,
        open: &Open,
        opens: &mut Vec<Open>,
        states: &mut Vec<NearState>,
    ) -> Result<bool, AllocError> {
        if let Some(state) = violated(aim.aim, open) {
            states.push(state)?;
            return Ok(states.len() < MOST_STATES);
        }
        let Some(class) = self.split_class(aim, open)? else {
            return Ok(true);
        };
        if self.nodes.len() >= caps.nodes || self.work >= caps.work {
            self.is_full = true;
            return Ok(false);
        }
        self.split(aim, open.leaf, class, opens)?;
        Ok(true)
    }

    /// Grows the tree until each leaf is closed for the master program's fills, the tree is full, or
    /// there are states at which more is owed. Answers these. The error is want of memory.
    pub fn grow(&mut self, aim: CellAim, caps: Caps) -> Result<Vec<NearState>, AllocError> {
        let mut opens = self.look_at_all(aim)?;
        let mut states = Vec::new(self.alloc);
        for _ in 0..MOST_LOOKS {
            let Some(open) = take_greatest(&mut opens) else {
                break;
            };
            if !self.work_on(aim, caps, &open, &mut opens, &mut states)? {
                break;
            }
        }
        Ok(states)
    }
}
