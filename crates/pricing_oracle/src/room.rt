//! Room for searches, one after another.
ghost use Rattle.std.specs.Prelude.{◌≡◌, ◌≤◌, IfOk, OnOk, length, map, replicate, unsigned_abs, vec_capacity};
ghost use Rattle.std.specs.List.{All};
ghost use Rattle.exact_num.specs.Fraction.{IsNotBelowZero};
ghost use Rattle.clearing_model.specs.Tree.{Unsigned};
ghost use Rattle.sign_tree.specs.Read.{sign_of};
ghost use Rattle.master_program.specs.Search.{search};
ghost use Rattle.pricing_oracle.specs.Nodes.{MayBeAsked, legs_asked};
ghost use Rattle.pricing_oracle.specs.Searches.{HasSearched, asked_within, no_parts, parts_in};
ghost use Rattle.pricing_oracle.specs.Sizes.{AreWithin};

use crate::branches::branch;
use crate::legs::SearchQuestion;
use crate::node::NodeRoom;
use crate::sizes::SearchSizes;
use exact_num::Exact;
use form::State;
use lists::{push_within, take_list};
use sign_tree::{Multipliers, Nodes, SignTree};
use simplex::{Budget, RunStop};
use std::alloc::{AllocError, Global};
use std::marker::Model;

/// What searches within these sizes work in, one after another. Only `new` and `renew` take memory.
/// Contracts see it as the sizes and the tree of the last search.
pub struct SearchRoom<N: Exact> {
    sizes: SearchSizes,
    nodes: NodeRoom<N>,
    // a sign for each leg: 0 for none
    signs: Vec<i8>,
}

// Not derived: whoever owns a room lets it go by this one call, and not field by field.
impl<N: Exact> Drop for SearchRoom<N> {
    fn drop(self) {
        let SearchRoom {
            sizes: _,
            nodes: _nodes,
            signs: _signs,
        } = self;
    }
}

impl<N: Exact> Model for SearchRoom<N> {
    ghost use Rattle.std.specs.Prelude.{vec_capacity};
    ghost use Rattle.pricing_oracle.specs.Rooms.{IsRoom, SearchSpace, search_space};

    ghost Value = { SearchSpace };

    ghost view = { λ s. search_space s.sizes s.nodes.tree };

    ghost invariant = { λ s. IsRoom s.sizes s.nodes (vec_capacity s.signs) };
}

// Writes that so many legs have no sign.
fn write_unsigned(signs: &mut Vec<i8>, count: usize)
    requires { count ≤ vec_capacity signs.old }
    ensures signs { map sign_of signs.new.items ≡ replicate count Unsigned }
    ensures capacity { vec_capacity signs.old ≤ vec_capacity signs.new }
{
    signs.clear();
    for _i in 0..count {
        push_within(signs, 0);
    }
}

impl<N: Exact> SearchRoom<N> {
    /// Room for searches within these sizes. The error is want of memory.
    pub fn new(alloc: Global, sizes: SearchSizes) -> Result<SearchRoom<N>, AllocError>
        requires { (sizes.underlyings ≤ 8) × (sizes.legs ≤ 1024) }
        ensures sizes { IfOk result (λ room. room.sizes ≡ sizes) }
    {
        let signs = Vec::with_capacity(alloc, sizes.legs)?;
        let nodes = NodeRoom::new(alloc, sizes)?;
        Ok(SearchRoom {
            sizes,
            nodes,
            signs,
        })
    }

    /// Makes it room for searches within these sizes: the programs, signs and rows stay where they
    /// are large enough, and the lists of the tree are taken where they are not there. The error is
    /// want of memory.
    pub fn renew(&mut self, alloc: Global, sizes: SearchSizes) -> Result<(), AllocError>
        requires { (sizes.underlyings ≤ 8) × (sizes.legs ≤ 1024) }
        ensures sizes { OnOk result (AreWithin sizes self.new.sizes) }
    {
        if self.sizes.underlyings < sizes.underlyings || self.sizes.legs < sizes.legs {
            *self = SearchRoom::new(alloc, sizes)?;
            return Ok(());
        }
        // Until both lists are there, it is for no unit.
        self.sizes.units = 0;
        self.nodes.tree.renew(sizes.units)?;
        self.sizes.units = sizes.units;
        Ok(())
    }

    /// Searches from the root, at which no leg has a sign: the tree stands here where it closes,
    /// and else the answer is the state that it finds.
    pub(crate) fn search(
        &mut self,
        asked: SearchQuestion<N>,
        legs: usize,
        budget: &mut Budget,
    ) -> Result<Option<State>, RunStop>
        requires asked { MayBeAsked asked }
        requires not_below_zero { All IsNotBelowZero (map N.fraction asked.fills.now) }
        requires few { legs ≤ 1024 }
        requires count { legs ≡ length (legs_asked N.fraction asked) }
        requires underlyings { asked.underlyings ≤ self.old.sizes.underlyings }
        requires legs { legs ≤ self.old.sizes.legs }
        requires units { budget.old.limit ≤ self.old.sizes.units }
        ensures search { HasSearched no_parts (parts_in self.new.tree)
            (search (asked_within N.fraction (unsigned_abs N.LIMIT) budget.old.limit asked.entry)
            budget.old.spent) result budget.new.spent }
        ensures sizes { self.new.sizes ≡ self.old.sizes }
        ensures limit { budget.new.limit ≡ budget.old.limit }
    {
        self.nodes.tree.nodes.clear();
        self.nodes.tree.multipliers.clear();
        write_unsigned(&mut self.signs, legs);
        branch(&mut self.nodes, asked, self.signs.as_mut_slice(), budget)
    }

    /// Takes the tree of the last search, which closed, and its memory: the room is for no unit
    /// then, until `renew`.
    pub fn take_tree(&mut self) -> SignTree
        ensures tree { result ≡ self.old.tree }
        ensures sizes { self.new.sizes ≡ record self.old.sizes { units = 0 } }
    {
        self.sizes.units = 0;
        SignTree {
            nodes: Nodes::from_vec(take_list(&mut self.nodes.tree.nodes)),
            multipliers: Multipliers::from_vec(take_list(&mut self.nodes.tree.multipliers)),
        }
    }
}
