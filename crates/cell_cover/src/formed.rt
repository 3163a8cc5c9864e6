//! Whether nodes are those of a cover whose classes a batch has.

ghost use Rattle.std.specs.Prelude.{◌≡◌, ◌≤◌, ◌<◌, ◌&&◌, map, nat_le, nat_lt};
ghost use Rattle.cell_cover.specs.Cells.{class_in, classes_rise, is_class};
ghost use Rattle.cell_cover.specs.Formed.{is_formed, is_some_left, left_behind, node_has_classes};
ghost use Rattle.cell_cover.specs.Read.{multiplier_of, node_of};

use crate::cover::{Multiplier, Node};

/// Whether the class is one of so many.
fn is_class(count: usize, class: u32) -> bool
    ensures { result ≡ is_class count class }
{
    1 <= class && class as usize <= count
}

/// Whether the class is past the one before it, and not past the last.
fn follows(count: usize, before: u32, class: u32) -> bool
    ensures { result ≡ (nat_lt before class && nat_le class count) }
{
    before < class && class as usize <= count
}

/// Whether the classes rise strictly, and none is past the last.
fn classes_rise(count: usize, classes: &[u32]) -> bool
    ensures { result ≡ classes_rise count 0 classes.now }
{
    let mut last = 0;
    for class in classes {
        if !follows(count, last, *class) {
            return false;
        }
        last = *class;
    }
    true
}

/// The same of the classes of multipliers.
fn multipliers_rise(count: usize, multipliers: &[Multiplier]) -> bool
    ensures { result ≡ classes_rise count 0 (map class_in (map multiplier_of multipliers.now)) }
{
    let mut last = 0;
    for multiplier in multipliers {
        if !follows(count, last, multiplier.class) {
            return false;
        }
        last = multiplier.class;
    }
    true
}

/// Whether the node names classes that there are, in lists that rise.
fn node_has_classes(count: usize, node: &Node) -> bool
    ensures { result ≡ node_has_classes count (node_of node.now) }
{
    match node {
        Node::Split { class } => is_class(count, *class),
        Node::Bound { class, minus, plus } => {
            is_class(count, *class)
                && multipliers_rise(count, minus.as_slice())
                && multipliers_rise(count, plus.as_slice())
        }
        Node::Leaf { full, multipliers } => {
            classes_rise(count, full.as_slice()) && multipliers_rise(count, multipliers.as_slice())
        }
    }
}

/// Whether a tree is still to come, and the node names classes that there are.
fn may_follow(count: usize, left: usize, node: &Node) -> bool
    ensures { result ≡ (is_some_left left && node_has_classes count (node_of node.now)) }
{
    left > 0 && node_has_classes(count, node)
}

/// How many trees are still to come behind the node, where `left` were before it, and one at least.
fn left_behind(left: usize, node: &Node) -> usize
    requires { (1 ≤ left) × (left < 9223372036854775808) }
    ensures { result ≡ left_behind left (node_of node.now) }
{
    match node {
        Node::Split { class: _ } => left + 1,
        Node::Bound { .. } => left,
        Node::Leaf { .. } => left - 1,
    }
}

/// Whether the nodes are those of one tree that names such classes, and nothing follows it.
pub fn is_formed(count: usize, nodes: &[Node]) -> bool
    ensures { result ≡ is_formed count (map node_of nodes.now) }
{
    let mut left = 1;
    for node in nodes {
        if !may_follow(count, left, node) {
            return false;
        }
        left = left_behind(left, node);
    }
    left == 0
}
