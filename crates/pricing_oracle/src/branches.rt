//! The branches of a search.
ghost use Rattle.std.specs.Prelude.{◌≡◌, ◌≤◌, ◌<◌, ◌+◌, ◌++◌, ◌∷◌, [], ℕ, None, Ok, length, map, pos, slice_index_or, unsigned_abs, vec_capacity, vec_len};
ghost use Rattle.std.specs.List.{All};
ghost use Rattle.exact_num.specs.Fraction.{IsNotBelowZero};
ghost use Rattle.clearing_model.specs.Written.{SplitNode};
ghost use Rattle.sign_tree.specs.Read.{sign_of};
ghost use Rattle.master_program.specs.Search.{search_from};
ghost use Rattle.pricing_oracle.specs.Nodes.{MayBeAsked, legs_asked};
ghost use Rattle.pricing_oracle.specs.Rooms.{HasNodeRoom, HasRoom, KeepsNodeRoom, KeepsRoom};
ghost use Rattle.pricing_oracle.specs.Searches.{HasSearched, after_split, asked_within, parts_of, unsigned_in};

use crate::legs::SearchQuestion;
use crate::node::{NodeRoom, Shown, TreeParts, open_node};
use exact_num::Exact;
use form::State;
use lists::push_within;
use sign_tree::Node;
use simplex::{Budget, RunStop};

// Adds the node of a split at the leg.
fn add_split(tree: &mut TreeParts, place: usize)
    requires place { place ≤ 1024 }
    requires room { vec_len tree.old.nodes < vec_capacity tree.old.nodes }
    ensures nodes { (parts_of tree.new).nodes
        ≡ (parts_of tree.old).nodes ++ SplitNode (place + 1) ∷ [] }
    ensures multipliers { tree.new.multipliers ≡ tree.old.multipliers }
    ensures one { vec_len tree.new.nodes ≡ vec_len tree.old.nodes + 1 }
    ensures room { KeepsRoom tree.old tree.new }
{
    let split = Node::Split {
        place: place as u32 + 1,
    };
    push_within(&mut tree.nodes, split);
}

// Searches the branch with these signs: adds its tree where it closes, and the signs stand again as
// before; else answers the state that it finds.
#[cycle(branching)]
pub(crate) fn branch<N: Exact>(
    room: &mut NodeRoom<N>,
    asked: SearchQuestion<N>,
    signs: &mut [i8],
    budget: &mut Budget,
) -> Result<Option<State>, RunStop>
    requires asked { MayBeAsked asked }
    requires not_below_zero { All IsNotBelowZero (map N.fraction asked.fills.now) }
    requires few { length signs.old ≤ 1024 }
    requires count { length signs.old ≡ length (legs_asked N.fraction asked) }
    requires room { HasNodeRoom asked.underlyings (length signs.old) room.old }
    requires tree { HasRoom room.old.tree budget.old.spent budget.old.limit }
    ensures search { (depth : ℕ) → unsigned_in (map sign_of signs.old) ≤ depth
        → HasSearched (parts_of room.old.tree) (parts_of room.new.tree) (search_from
        (asked_within N.fraction (unsigned_abs N.LIMIT) budget.old.limit asked.entry)
        depth (map sign_of signs.old) budget.old.spent) result budget.new.spent }
    ensures signs { result ≡ Ok None → signs.new ≡ signs.old }
    ensures room { KeepsNodeRoom room.old room.new }
    ensures limit { budget.new.limit ≡ budget.old.limit }
{
    match open_node(room, asked, signs, budget)? {
        Shown::Leaf => Ok(None),
        Shown::Violated(state) => Ok(Some(state)),
        Shown::Splits(place) => sides(room, asked, signs, budget, place),
    }
}

// Searches both sides of a split at the leg: first with the plus sign, and then with the minus
// sign.
#[cycle(branching)]
fn sides<N: Exact>(
    room: &mut NodeRoom<N>,
    asked: SearchQuestion<N>,
    signs: &mut [i8],
    budget: &mut Budget,
    place: usize,
) -> Result<Option<State>, RunStop>
    requires asked { MayBeAsked asked }
    requires not_below_zero { All IsNotBelowZero (map N.fraction asked.fills.now) }
    requires few { length signs.old ≤ 1024 }
    requires count { length signs.old ≡ length (legs_asked N.fraction asked) }
    requires room { HasNodeRoom asked.underlyings (length signs.old) room.old }
    requires tree { HasRoom room.old.tree budget.old.spent budget.old.limit }
    requires node { vec_len room.old.tree.nodes < budget.old.spent }
    requires inside { place < length signs.old }
    requires unsigned { slice_index_or signs.old place (pos 0) ≡ pos 0 }
    ensures search { (depth : ℕ) → unsigned_in (map sign_of signs.old) ≤ depth
        → HasSearched (parts_of room.old.tree) (parts_of room.new.tree) (after_split
        (asked_within N.fraction (unsigned_abs N.LIMIT) budget.old.limit asked.entry)
        depth (map sign_of signs.old) place budget.old.spent) result budget.new.spent }
    ensures signs { result ≡ Ok None → signs.new ≡ signs.old }
    ensures room { KeepsNodeRoom room.old room.new }
    ensures limit { budget.new.limit ≡ budget.old.limit }
{
    add_split(&mut room.tree, place);
    signs[place] = 1;
    if let Some(plus) = branch(room, asked, signs, budget)? {
        return Ok(Some(plus));
    }
    signs[place] = -1;
    if let Some(minus) = branch(room, asked, signs, budget)? {
        return Ok(Some(minus));
    }
    signs[place] = 0;
    Ok(None)
}
