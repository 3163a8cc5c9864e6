//! The ranges of a cover by cells.
ghost use Rattle.std.specs.Prelude.{◌≡◌, ◌&&◌, length, nat_le};
ghost use Rattle.proposal_text.specs.CellRanges.{listed, listed_in as count_listed};

use cell_cover::cover::Node;

/// The last class: one for each leg that a batch may have.
pub const MAX_CLASS: u64 = 1_024;

/// The most nodes.
pub const MAX_CELLS: usize = 100_000;

/// The most classes in the lists of all nodes.
pub const MAX_LISTED: usize = 1_000_000;

// How many classes stand in the lists of a node.
fn listed_in(node: &Node) -> usize
    ensures { result ≡ count_listed node.now }
{
    match node {
        Node::Split { class: _ } => 0,
        Node::Bound { minus, plus, .. } => minus.as_slice().len() + plus.as_slice().len(),
        Node::Leaf { full, multipliers } => full.as_slice().len() + multipliers.as_slice().len(),
    }
}

// Whether the lists of all nodes have not too many classes.
fn are_lists_short(nodes: &[Node]) -> bool
    ensures { result ≡ nat_le (listed nodes.now) MAX_LISTED }
{
    let mut left = MAX_LISTED;
    for node in nodes {
        let count = listed_in(node);
        if count > left {
            return false;
        }
        left -= count;
    }
    true
}

/// Whether there are not too many nodes, and not too many classes in their lists.
pub fn are_few(nodes: &[Node]) -> bool
    ensures { result ≡ (nat_le (length nodes.now) MAX_CELLS
        && nat_le (listed nodes.now) MAX_LISTED) }
{
    nodes.len() <= MAX_CELLS && are_lists_short(nodes)
}
