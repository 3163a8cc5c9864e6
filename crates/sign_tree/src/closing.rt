//! The walk over a tree.

ghost use Rattle.std.specs.Prelude.{◌≡◌, ◌≤◌, ◌<◌, ◌-◌, ◌+◌, ◌∷◌, length, map, IfOk, MatchOption, EachIndex, false, pos, slice_index_or};
ghost use Rattle.std.specs.List.{All};
ghost use Rattle.frac.specs.Range.{limit};
ghost use Rattle.frac.specs.Value.{fraction_of};
ghost use Rattle.form.specs.Limits.{HasItsForms};
ghost use Rattle.clearing_model.specs.Written.{LeafNode, SplitNode};
ghost use Rattle.sign_tree.specs.declared.closing.TheConstants.{MAX_SIGNS};
ghost use Rattle.sign_tree.specs.declared.trees.TreeVerdict.TheVariants.{Closed, Open};
ghost use Rattle.sign_tree.specs.Laws.{IsClosedOver, IsEnoughByTree};
ghost use Rattle.exact_num.specs.Fraction.{IsNotBelowZero};
ghost use Rattle.sign_tree.specs.Legs.{leg_count};
ghost use Rattle.sign_tree.specs.Left.{batch_legs};
ghost use Rattle.sign_tree.specs.Read.{node_of, placed_of, sign_of};
ghost use Rattle.sign_tree.specs.Walk.{closes_of, fraction_legs, may_split};
ghost use Rattle.sign_tree.specs.Verdict.{IsSplit, WalksTo, goes_on, is_nothing, tree_verdict};

use crate::filled::Filled;
use crate::leaf::{is_unsigned, leaf_closes};
use crate::legs::leg_at;
use crate::trees::{Multiplier, Node, SignTree, TreeVerdict};
use exact_num::Wide;
use form::{Batch, Order};
use frac::Frac128;

/// The most signs that a walk keeps: 256 orders of four legs each.
pub const MAX_SIGNS: usize = 1_024;

/// What is left of a tree to be walked.
#[derive(Clone, Copy)]
struct Left<'a> {
    nodes: &'a [Node],
    multipliers: &'a [Multiplier],
}

/// Why a walk ends before its subtree does.
#[derive(Clone, Copy)]
enum WalkStop {
    Open,
    Wide(Wide),
}

/// Whether the tree closes over the fills with the liability: every leaf of it shows that no state
/// owes more. Where no fill is below 0, `Closed` shows that it is well formed and each leaf closes,
/// so that the liability is enough, and `Open` that it is not so; `Wide` has the first step that
/// does not fit, where nothing failed before. There are as many fills as orders, and as many signs
/// as the orders have legs, which are at most 1,024; what the signs held does not matter. The walk
/// goes one call deeper for each split on its way, of which there are at most as many as long legs.
/// Takes no memory. (Farkas' lemma in its easy direction: Chvatal, Linear Programming, chapter 16.)
pub fn closes(
    batch: &Batch,
    fills: &[Frac128],
    liability: &Frac128,
    tree: &SignTree,
    signs: &mut [i8],
) -> TreeVerdict
    requires forms { HasItsForms batch.now }
    requires fills { length fills.now ≡ length batch.now.orders }
    requires signs { length signs.old ≡ leg_count batch.now.orders }
    requires few { leg_count batch.now.orders ≤ MAX_SIGNS }
    ensures walked { result
        ≡ tree_verdict (closes_of limit batch.now.underlyings
        (fraction_legs batch.now.orders (map fraction_of fills.now)) (fraction_of liability.now)
        (map node_of tree.now.nodes) (map placed_of tree.now.multipliers)) }
    ensures closed { All IsNotBelowZero (map fraction_of fills.now) → result ≡ Closed
        → IsClosedOver batch.now fills.now liability.now tree.now }
    ensures enough { All IsNotBelowZero (map fraction_of fills.now) → result ≡ Closed
        → IsEnoughByTree batch.now fills.now liability.now tree.now }
    ensures refuted { All IsNotBelowZero (map fraction_of fills.now) → result ≡ Open
        → IsClosedOver batch.now fills.now liability.now tree.now → ⊥ }
{
    unsign(signs);
    let left = Left {
        nodes: tree.nodes.as_slice(),
        multipliers: tree.multipliers.as_slice(),
    };
    let filled = Filled {
        orders: batch.orders.as_slice(),
        fills,
        liability,
        entries: batch.underlyings as usize + 1,
    };
    verdict_of(subtree(&filled, signs, left))
}

/// The verdict at the end of the whole walk.
fn verdict_of(walked: Result<Left, WalkStop>) -> TreeVerdict
    ensures { result
        ≡ tree_verdict (goes_on (λ nodes ms. Ok (is_nothing nodes ms)) walked.entry) }
{
    match walked {
        Ok(left) => at_end(left),
        Err(WalkStop::Open) => TreeVerdict::Open,
        Err(WalkStop::Wide(wide)) => TreeVerdict::Wide(wide),
    }
}

/// Whether nothing is left after the whole tree.
fn at_end(left: Left) -> TreeVerdict
    ensures { result
        ≡ tree_verdict (Ok (is_nothing (map node_of left.entry.nodes.now)
        (map placed_of left.entry.multipliers.now))) }
{
    if left.nodes.is_empty() && left.multipliers.is_empty() {
        TreeVerdict::Closed
    } else {
        TreeVerdict::Open
    }
}

/// Takes every sign away.
fn unsign(signs: &mut [i8])
    ensures { EachIndex signs.new (λ k. slice_index_or signs.new k (pos 0) ≡ pos 0) }
{
    for sign in signs.iter_mut() {
        *sign = 0;
    }
}

/// Walks one subtree under these signs, which stand again as before where it closes, and answers
/// what is left.
#[cycle(walk)]
fn subtree<'a>(filled: &Filled, signs: &mut [i8], left: Left<'a>) -> Result<Left<'a>, WalkStop>
    ensures walks { WalksTo (filled.now.entries - 1)
        (batch_legs fraction_of filled.now.orders.now filled.now.fills.now)
        (fraction_of filled.now.liability.now) (map node_of left.entry.nodes.now)
        (map sign_of signs.old) (map placed_of left.entry.multipliers.now) result }
    ensures signs { IfOk result (λ rest. signs.new ≡ signs.old) }
    ensures shorter { IfOk result (λ rest. length rest.nodes.now < length left.entry.nodes.now) }
{
    let Some((node, nodes)) = left.nodes.split_first() else {
        return Err(WalkStop::Open);
    };
    let left = Left { nodes, ..left };
    match *node {
        Node::Leaf { count } => leaf(filled, signs, count, left),
        Node::Split { place } => split(filled, signs, place, left),
    }
}

/// Walks both sides of a split at the place, first with the plus sign and then with the minus sign.
#[cycle(walk)]
fn split<'a>(
    filled: &Filled,
    signs: &mut [i8],
    place: u32,
    left: Left<'a>,
) -> Result<Left<'a>, WalkStop>
    ensures walks { WalksTo (filled.now.entries - 1)
        (batch_legs fraction_of filled.now.orders.now filled.now.fills.now)
        (fraction_of filled.now.liability.now) (SplitNode place ∷ map node_of left.entry.nodes.now)
        (map sign_of signs.old) (map placed_of left.entry.multipliers.now) result }
    ensures signs { IfOk result (λ rest. signs.new ≡ signs.old) }
    ensures shorter { IfOk result (λ rest. length rest.nodes.now < length left.entry.nodes.now) }
{
    let Some(i) = split_index(filled.orders, filled.fills, signs, place) else {
        return Err(WalkStop::Open);
    };
    signs[i] = 1;
    let middle = subtree(filled, signs, left)?;
    signs[i] = -1;
    let rest = subtree(filled, signs, middle)?;
    signs[i] = 0;
    Ok(rest)
}

/// Takes the multipliers of a leaf, and answers what is left after it where it closes.
fn leaf<'a>(filled: &Filled, signs: &[i8], count: u32, left: Left<'a>) -> Result<Left<'a>, WalkStop>
    ensures walks { WalksTo (filled.now.entries - 1)
        (batch_legs fraction_of filled.now.orders.now filled.now.fills.now)
        (fraction_of filled.now.liability.now) (LeafNode count ∷ map node_of left.entry.nodes.now)
        (map sign_of signs.now) (map placed_of left.entry.multipliers.now) result }
    ensures nodes { IfOk result (λ rest. rest.nodes.now ≡ left.entry.nodes.now) }
{
    let count = count as usize;
    if count > left.multipliers.len() {
        return Err(WalkStop::Open);
    }
    let (here, multipliers) = left.multipliers.split_at(count);
    match leaf_closes(filled, signs, here) {
        Ok(true) => Ok(Left {
            multipliers,
            ..left
        }),
        Ok(false) => Err(WalkStop::Open),
        Err(wide) => Err(WalkStop::Wide(wide)),
    }
}

/// The index of the long leg without a sign at the place, where there is one.
fn split_index(orders: &[Order], fills: &[Frac128], signs: &[i8], place: u32) -> Option<usize>
    requires { length fills.now ≡ length orders.now }
    ensures { MatchOption result
        (may_split (batch_legs fraction_of orders.now fills.now) (map sign_of signs.now) place
        ≡ false)
        (IsSplit (batch_legs fraction_of orders.now fills.now) signs.now place) }
{
    let place = place as usize;
    if place == 0 || place > signs.len() {
        return None;
    }
    let i = place - 1;
    let leg = leg_at(orders, fills, i)?;
    if is_unsigned(leg.exposure, signs[i]) {
        Some(i)
    } else {
        None
    }
}
