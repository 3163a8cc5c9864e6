//! The search.
ghost use Rattle.std.specs.Prelude.{◌≡◌, IfOk, map, unsigned_abs};
ghost use Rattle.master_program.specs.Search.{search as search_of};
ghost use Rattle.pricing_oracle.specs.Answers.{IsSearchAnswer, IsTrueOf, MayBeSearched, found_in, question};
ghost use Rattle.pricing_oracle.specs.Sizes.{AreWithin, sizes_for};

use crate::found::Found;
use crate::legs::SearchQuestion;
use crate::room::SearchRoom;
use crate::sizes::SearchSizes;
use exact_num::Exact;
use form::{Batch, State};
use sign_tree::leg_count;
use simplex::{Budget, RunStop, SolveStop};
use std::alloc::Global;

/// Whether the liability is enough for the fills at every state: the search of the reference run,
/// in given room. Where it is, there is no answer and the room has the tree that closes; else the
/// answer is a state at which it is not. It takes no memory.
///
/// `Wide` comes at the first step of the search that does not fit, `Budget` where it wants one unit
/// more than the budget has; units that were spent stay spent.
pub fn search_in<N: Exact>(
    batch: &Batch,
    fills: &[N],
    liability: &N,
    budget: &mut Budget,
    room: &mut SearchRoom<N>,
) -> Result<Option<State>, RunStop>
    requires asked { MayBeSearched N.fraction batch.now fills.now }
    requires sizes { AreWithin (sizes_for batch.now budget.old.limit) room.old.sizes }
    ensures search { IsSearchAnswer (search_of
        (question (unsigned_abs N.LIMIT) budget.old.limit batch.now (map N.fraction fills.now)
        (N.fraction liability.now)) budget.old.spent)
        (found_in room.new.tree result) budget.new.spent }
    ensures found { IfOk (found_in room.new.tree result) (IsTrueOf
        (question (unsigned_abs N.LIMIT) budget.old.limit batch.now (map N.fraction fills.now)
        (N.fraction liability.now))) }
    ensures sizes { room.new.sizes ≡ room.old.sizes }
    ensures limit { budget.new.limit ≡ budget.old.limit }
{
    let orders = batch.orders.as_slice();
    let asked = SearchQuestion {
        underlyings: batch.underlyings as usize,
        orders,
        fills,
        liability,
    };
    room.search(asked, leg_count(orders), budget)
}

// The same, with the tree of a search that closes taken out of the room.
fn found_by<N: Exact>(
    batch: &Batch,
    fills: &[N],
    liability: &N,
    budget: &mut Budget,
    room: &mut SearchRoom<N>,
) -> Result<Found, SolveStop>
    requires asked { MayBeSearched N.fraction batch.now fills.now }
    requires sizes { AreWithin (sizes_for batch.now budget.old.limit) room.old.sizes }
    ensures search { IsSearchAnswer (search_of
        (question (unsigned_abs N.LIMIT) budget.old.limit batch.now (map N.fraction fills.now)
        (N.fraction liability.now)) budget.old.spent) result budget.new.spent }
    ensures found { IfOk result (IsTrueOf
        (question (unsigned_abs N.LIMIT) budget.old.limit batch.now (map N.fraction fills.now)
        (N.fraction liability.now))) }
    ensures limit { budget.new.limit ≡ budget.old.limit }
{
    match search_in(batch, fills, liability, budget, room)? {
        Some(state) => Ok(Found::Violated(state)),
        None => Ok(Found::Closed(room.take_tree())),
    }
}

/// The same in room of its own, for want of which `Memory` comes.
pub fn search<N: Exact>(
    alloc: Global,
    batch: &Batch,
    fills: &[N],
    liability: &N,
    budget: &mut Budget,
) -> Result<Found, SolveStop>
    requires { MayBeSearched N.fraction batch.now fills.now }
    ensures search { IsSearchAnswer (search_of
        (question (unsigned_abs N.LIMIT) budget.old.limit batch.now (map N.fraction fills.now)
        (N.fraction liability.now)) budget.old.spent) result budget.new.spent }
    ensures found { IfOk result (IsTrueOf
        (question (unsigned_abs N.LIMIT) budget.old.limit batch.now (map N.fraction fills.now)
        (N.fraction liability.now))) }
    ensures limit { budget.new.limit ≡ budget.old.limit }
{
    let mut room = SearchRoom::new(alloc, SearchSizes::of(batch, budget.limit))?;
    found_by(batch, fills, liability, budget, &mut room)
}
