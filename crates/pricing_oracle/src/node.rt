//! One node of the search.
ghost use Rattle.std.specs.Prelude.{◌≡◌, ◌≤◌, ◌<◌, ◌+◌, ℕ, List, Some, length, map, suc, take, unsigned_abs, vec_capacity, vec_len};
ghost use Rattle.std.specs.List.{All};
ghost use Rattle.exact_num.specs.Fraction.{Fraction, IsNotBelowZero};
ghost use Rattle.exact_num.specs.Tests.{is_above_zero};
ghost use Rattle.clearing_model.specs.Written.{Ends};
ghost use Rattle.form.specs.Primitive.{IsDirection};
ghost use Rattle.sign_tree.specs.Read.{sign_of};
ghost use Rattle.simplex.specs.Spaces.{IsFound, x_of, y_of};
ghost use Rattle.master_program.specs.Search.{leaf_of, node_end};
ghost use Rattle.simplex_run.specs.Ending.{unbounded};
ghost use Rattle.pricing_oracle.specs.Nodes.{MayBeAsked, legs_asked};
ghost use Rattle.pricing_oracle.specs.Rooms.{HasNodeRoom, HasRoom, KeepsNodeRoom, KeepsRoom};
ghost use Rattle.pricing_oracle.specs.Searches.{HasRows, HasShown, WrittenParts, asked_within, node_of_asked, parts_of, state_end, with_tree};

use crate::excess::excess;
use crate::giving::give_program;
use crate::legs::SearchQuestion;
use crate::reading::{add_multipliers, state_of};
use crate::rows::cover_count;
use crate::sizes::SearchSizes;
use crate::splitting::split_place;
use exact_num::Exact;
use form::State;
use lists::{make_room, push_within};
use sign_tree::{Multiplier, Node};
use simplex::{Budget, RunStop, Space};
use std::alloc::{AllocError, Global};

/// What a node shows.
#[derive(Clone, Copy)]
pub enum Shown {
    /// That its side closes.
    Leaf,
    /// A state at which the fills owe more than the liability times t.
    Violated(State),
    /// The place, counted from 0, of the leg at which it splits.
    Splits(usize),
}

/// The nodes and multipliers of a tree so far.
#[derive(Drop)]
pub struct TreeParts {
    pub nodes: Vec<Node>,
    pub multipliers: Vec<Multiplier>,
}

impl TreeParts {
    ghost use Rattle.pricing_oracle.specs.Rooms.{HasTreeRoom};
    ghost use Rattle.std.specs.Prelude.{IfOk, OnOk};

    /// Room for the tree of a search with at most so many units. The error is want of memory.
    pub fn new(alloc: Global, units: u32) -> Result<TreeParts, AllocError>
        ensures { IfOk result (HasTreeRoom units) }
    {
        let nodes = Vec::with_capacity(alloc, units as usize)?;
        let multipliers = Vec::with_capacity(alloc, units as usize)?;
        Ok(TreeParts { nodes, multipliers })
    }

    /// Makes it room for the tree of a search with at least so many units.
    pub fn renew(&mut self, units: u32) -> Result<(), AllocError>
        ensures { OnOk result (HasTreeRoom units self.new) }
    {
        make_room(&mut self.nodes, units as usize)?;
        make_room(&mut self.multipliers, units as usize)
    }
}

/// What the nodes of a search work in, one after another.
#[derive(Drop)]
pub struct NodeRoom<N: Exact> {
    // the program of a node
    pub space: Space<N>,
    // the row that is given next, or the state that is read off
    pub row: Vec<N>,
    // the nodes and multipliers so far: no more than units are spent
    pub tree: TreeParts,
}

impl<N: Exact> NodeRoom<N> {
    ghost use Rattle.pricing_oracle.specs.Rooms.{HasTreeRoom};
    ghost use Rattle.std.specs.Prelude.{IfOk};

    /// Room for the nodes of searches within these sizes. The error is want of memory.
    pub fn new(alloc: Global, sizes: SearchSizes) -> Result<NodeRoom<N>, AllocError>
        requires { (sizes.underlyings ≤ 8) × (sizes.legs ≤ 1024) }
        ensures node { IfOk result (HasNodeRoom sizes.underlyings sizes.legs) }
        ensures tree { IfOk result (λ room. HasTreeRoom sizes.units room.tree) }
    {
        let columns = sizes.underlyings + 1 + sizes.legs;
        Ok(NodeRoom {
            row: Vec::with_capacity(alloc, columns)?,
            tree: TreeParts::new(alloc, sizes.units)?,
            space: Space::new(alloc, 1 + sizes.legs, columns)?,
        })
    }
}

// Whether a number is above 0.
fn is_above_zero<N: Exact>(x: N) -> bool
    ensures { result ≡ is_above_zero (N.fraction x) }
{
    x.sign() > 0
}

// Adds a leaf, whose multipliers the optimum in the space gives.
fn add_leaf<N: Exact>(
    tree: &mut TreeParts,
    space: &Space<N>,
    asked: SearchQuestion<N>,
    signs: &[i8],
)
    requires asked { MayBeAsked asked }
    requires signs { length signs.now ≤ 1024 }
    requires found { IsFound space.now.contents }
    requires rows { HasRows asked.underlyings
        (node_of_asked N.fraction asked (map sign_of signs.now)) (y_of space.now.contents) }
    requires node { vec_len tree.old.nodes < vec_capacity tree.old.nodes }
    requires multipliers { vec_len tree.old.multipliers + length (leaf_of
        (node_of_asked N.fraction asked (map sign_of signs.now)) (y_of space.now.contents))
        ≤ vec_capacity tree.old.multipliers }
    ensures leaf { parts_of tree.new ≡ with_tree (parts_of tree.old) (Ends (leaf_of
        (node_of_asked N.fraction asked.entry (map sign_of signs.now))
        (y_of space.now.contents))) }
    ensures room { KeepsRoom tree.old tree.new }
{
    let before = tree.multipliers.len();
    let covers = cover_count(asked, signs);
    add_multipliers(&mut tree.multipliers, space, asked, signs, covers);
    let count = tree.multipliers.len() - before;
    let leaf = Node::Leaf {
        count: count as u32,
    };
    push_within(&mut tree.nodes, leaf);
}

// What a node shows whose optimum is above 0.
fn look_at_state<N: Exact>(
    space: &Space<N>,
    row: &mut Vec<N>,
    asked: SearchQuestion<N>,
    signs: &[i8],
    unit: u32,
) -> Result<Shown, RunStop>
    requires asked { MayBeAsked asked }
    requires signs { length signs.now ≤ 1024 }
    requires row { asked.underlyings + 1 ≤ vec_capacity row.old }
    requires found { IsFound space.now.contents }
    requires direction { IsDirection (take (suc asked.underlyings) (x_of space.now.contents)) }
    requires count { suc asked.underlyings ≤ length (x_of space.now.contents) }
    requires bounded { (d : List Fraction) (spent : ℕ)
        → state_end N.fraction (unsigned_abs N.LIMIT) asked (map sign_of signs.now)
        (x_of space.now.contents) unit ≡ unbounded d spent → ⊥ }
    ensures shown { (parts : WrittenParts) → HasShown parts parts
        (state_end N.fraction (unsigned_abs N.LIMIT) asked.entry (map sign_of signs.now)
        (x_of space.now.contents) unit) result unit }
    ensures capacity { vec_capacity row.old ≤ vec_capacity row.new }
{
    let state = match state_of(row, space, asked.underlyings) {
        Ok(state) => state,
        Err(wide) => return Err(RunStop::Wide { unit, wide }),
    };
    let excess = match excess(asked, &state) {
        Ok(excess) => excess,
        Err(wide) => return Err(RunStop::Wide { unit, wide }),
    };
    if is_above_zero(excess) {
        return Ok(Shown::Violated(state));
    }
    match split_place(asked, signs) {
        Some(place) => Ok(Shown::Splits(place)),
        None => unreachable!(),
    }
}

/// Opens the node with these signs, for a unit: runs its program, and says what it shows. A leaf is
/// added to the tree.
pub fn open_node<N: Exact>(
    room: &mut NodeRoom<N>,
    asked: SearchQuestion<N>,
    signs: &[i8],
    budget: &mut Budget,
) -> Result<Shown, RunStop>
    requires asked { MayBeAsked asked }
    requires not_below_zero { All IsNotBelowZero (map N.fraction asked.fills.now) }
    requires signs { length signs.now ≤ 1024 }
    requires count { length signs.now ≡ length (legs_asked N.fraction asked) }
    requires room { HasNodeRoom asked.underlyings (length signs.now) room.old }
    requires tree { HasRoom room.old.tree budget.old.spent budget.old.limit }
    ensures shown { HasShown (parts_of room.old.tree) (parts_of room.new.tree)
        (node_end (asked_within N.fraction (unsigned_abs N.LIMIT) budget.old.limit asked.entry)
        (map sign_of signs.now) budget.old.spent) result budget.new.spent }
    ensures room { KeepsNodeRoom room.old room.new }
    ensures limit { budget.new.limit ≡ budget.old.limit }
{
    if !budget.spend() {
        return Err(RunStop::Budget);
    }
    if let Err(wide) = give_program(&mut room.space, &mut room.row, asked, signs) {
        return Err(RunStop::Wide {
            unit: budget.spent,
            wide,
        });
    }
    if !room.space.run(budget)? {
        unreachable!()
    }
    if is_above_zero(room.space.value()) {
        return look_at_state(&room.space, &mut room.row, asked, signs, budget.spent);
    }
    add_leaf(&mut room.tree, &room.space, asked, signs);
    Ok(Shown::Leaf)
}
