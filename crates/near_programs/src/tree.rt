//! The nodes of a tree.

/// A node: a leaf by its place in the list of leaves, or the place of the leg split at, and both
/// sides.
#[derive(Clone, Copy)]
pub enum TreeNode {
    Leaf {
        leaf: usize,
    },
    Split {
        place: usize,
        plus: usize,
        minus: usize,
    },
}
