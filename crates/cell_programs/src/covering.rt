//! A tree closed in whole numbers over fills in units, and its cover.

use crate::classes::Classes;
use crate::closing::{
    Closing, VERY_MUCH, all_steps, close_leaf, costs_of, near_need, scaled_kinks,
};
use crate::leaf::CellLeaf;
use crate::lowest::Placed;
use crate::netting::WholeNet;
use crate::tree::CellTree;
use crate::written::{CellCover, Room, Written};
use near_programs::numbers::nearest_whole;
use near_programs::rounding::scaled_unit;
use near_programs::tree::TreeNode;
use near_programs::{Book, power};
use std::alloc::{AllocError, Global};

/// What a cover is for: fills in units, the scaled liability that is enough, and what more of it
/// short texts may use up than the leaves need; and how long it may be.
#[derive(Clone, Copy)]
pub struct Covering<'a> {
    pub units: &'a [i128],
    pub aim: f64,
    pub more: f64,
    pub room: Room,
}

// A tree, where its bounds stand, and what leaves are closed for.
#[derive(Clone, Copy)]
struct Writing<'a> {
    closing: Closing<'a>,
    tree: &'a CellTree,
    placed: &'a Placed,
    room: Room,
}

// Closes and writes a leaf. Answers whether it went.
fn write_leaf(
    writing: Writing,
    leaf: Option<&CellLeaf>,
    written: &mut Written,
) -> Result<bool, AllocError> {
    let Some(leaf) = leaf else {
        return Ok(false);
    };
    match close_leaf(writing.closing, leaf)? {
        Some((need, multipliers)) => {
            let kinks = &writing.closing.net.kinks;
            written.add_leaf(&leaf.signs, kinks, &multipliers, need)
        }
        None => Ok(false),
    }
}

// Writes a bound. Answers whether it went.
fn write_bound(writing: Writing, place: usize, written: &mut Written) -> Result<bool, AllocError> {
    match writing.tree.bounds.get(place) {
        Some(bound) => written.add_bound(writing.closing.classes.classes.len(), bound),
        None => Ok(false),
    }
}

// Writes the bounds that stand at a node. Answers whether all went.
fn write_bounds(writing: Writing, at: usize, written: &mut Written) -> Result<bool, AllocError> {
    let mut next = writing.placed.first_at(at);
    for _ in 0..writing.tree.bounds.len() {
        let Some(bound) = next else {
            break;
        };
        if !write_bound(writing, bound, written)? {
            return Ok(false);
        }
        next = writing.placed.next_of(bound);
    }
    Ok(true)
}

// Writes a node, and puts its sides on the stack. Answers whether it went.
fn write_node(
    writing: Writing,
    at: usize,
    stack: &mut Vec<usize>,
    written: &mut Written,
) -> Result<bool, AllocError> {
    if !write_bounds(writing, at, written)? {
        return Ok(false);
    }
    match writing.tree.nodes.get(at).copied() {
        Some(TreeNode::Leaf { leaf }) => {
            write_leaf(writing, writing.tree.leaves.get(leaf), written)
        }
        Some(TreeNode::Split { place, plus, minus }) => {
            written.add_split(place)?;
            stack.push(minus)?;
            stack.push(plus)?;
            Ok(true)
        }
        None => Ok(false),
    }
}

// Closes and writes all nodes. Answers whether all went, and are as short as they may be.
fn write_all(writing: Writing, written: &mut Written) -> Result<bool, AllocError> {
    let mut stack = vec![in writing.closing.alloc; 0]?;
    for _ in 0..writing.tree.nodes.len() {
        let Some(at) = stack.pop() else {
            break;
        };
        if !write_node(writing, at, &mut stack, written)? || written.is_long(writing.room) {
            return Ok(false);
        }
    }
    Ok(true)
}

/// The cover of fills by a tree, with the liability that closes each leaf. None where a leaf does not
/// close, a number does not fit, or it is longer than it may be; the error is want of memory.
pub fn cover(
    alloc: Global,
    book: &Book,
    classes: &Classes,
    tree: &CellTree,
    covering: Covering,
) -> Result<Option<CellCover>, AllocError> {
    match WholeNet::new(alloc, classes, covering.units)? {
        Some(net) => cover_net(alloc, book, classes, tree, covering, &net),
        None => Ok(None),
    }
}

// A scaled liability in units.
fn whole_liability(book: &Book, liability: f64) -> i128 {
    nearest_whole(liability * scaled_unit(book.scales) * power(book.scales.money))
}

// The greatest scaled liability that a leaf needs, and at most the aim.
fn greatest_need(closing: Closing, tree: &CellTree) -> Result<f64, AllocError> {
    let mut greatest = -VERY_MUCH;
    for leaf in tree.leaves.iter() {
        if greatest >= closing.aim {
            break;
        }
        if !leaf.is_split {
            greatest = near_need(closing, leaf)?.max(greatest);
        }
    }
    Ok(greatest.min(closing.aim))
}

// What leaves are closed for, with no more aimed at than a leaf needs, and a little.
fn with_aim<'a>(
    closing: Closing<'a>,
    tree: &CellTree,
    more: f64,
) -> Result<Closing<'a>, AllocError> {
    let need = greatest_need(closing, tree)? + more;
    let aim = need.min(closing.aim);
    Ok(Closing {
        aim,
        enough: whole_liability(closing.book, aim),
        ..closing
    })
}

// The cover of a net.
fn cover_net<'a>(
    alloc: Global,
    book: &'a Book,
    classes: &'a Classes,
    tree: &'a CellTree,
    covering: Covering,
    net: &'a WholeNet,
) -> Result<Option<CellCover>, AllocError> {
    let kinks = scaled_kinks(alloc, book, net)?;
    let costs = costs_of(alloc, &kinks)?;
    let bounds = all_steps(alloc, classes, &tree.bounds)?;
    let placed = Placed::new(alloc, tree, &net.kinks)?;
    let closing = Closing {
        alloc,
        book,
        classes,
        net,
        kinks: &kinks,
        costs: &costs,
        bounds: &bounds,
        aim: covering.aim,
        enough: whole_liability(book, covering.aim),
    };
    let writing = Writing {
        closing: with_aim(closing, tree, covering.more)?,
        tree,
        placed: &placed,
        room: covering.room,
    };
    let mut written = Written::new(alloc);
    if write_all(writing, &mut written)? {
        Ok(written.finished())
    } else {
        Ok(None)
    }
}
