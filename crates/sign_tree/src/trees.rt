//! A tree of signs as it is written.

use exact_num::Wide;
use frac::Frac128;
use lists::List;

/// A node of a tree. The nodes of a tree stand in preorder: each before its plus side, and that
/// before its minus side.
#[derive(Clone, Copy, Debug, PartialEq, Eq)]
pub enum Node {
    /// Both signs of the buy at a place of the batch, counted from 1.
    Split { place: u32 },
    /// A leaf with the next `count` multipliers of the tree.
    Leaf { count: u32 },
}

/// The multiplier of the order at a place of the batch, counted from 1.
#[derive(Clone, Copy, Debug, PartialEq, Eq)]
pub struct Multiplier {
    pub place: u32,
    pub by: Frac128,
}

/// Nodes, which contracts see as their list.
pub type Nodes = List<Node>;

/// Multipliers, which contracts see as their list.
pub type Multipliers = List<Multiplier>;

/// A tree: its nodes in preorder, and the multipliers of its leaves one leaf after another.
#[derive(Debug, Drop)]
pub struct SignTree {
    pub nodes: Nodes,
    pub multipliers: Multipliers,
}

/// Whether a tree closes, or the first step that does not fit.
#[derive(Clone, Copy, Debug, PartialEq, Eq)]
pub enum TreeVerdict {
    Closed,
    Open,
    Wide(Wide),
}
