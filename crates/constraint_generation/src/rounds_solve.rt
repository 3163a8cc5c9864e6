//! The joint solve on several underlyings.
ghost use Rattle.std.specs.Prelude.{◌≡◌, ◌<◌, ◌+◌, IfOk, unsigned_abs, vec_capacity};
ghost use Rattle.form.specs.Limits.{IsWithinLimits};
ghost use Rattle.master_program.specs.Rounds.{rounds};
ghost use Rattle.constraint_generation.specs.Answers.{IsJointAnswer, IsJointOf, as_stopped, limits_of};
ghost use Rattle.constraint_generation.specs.Rooms.{IsRoundsRoom};
ghost use Rattle.constraint_generation.specs.Round.{IsClearedAnswer};
ghost use Rattle.constraint_generation.specs.Run.{unjudged_run};

use crate::reading::Claim;
use crate::round::{RoundEnd, round};
use crate::solution::Solution;
use crate::solve_room::{SolveRoom, take_joint};
use cert_check::Cover;
use exact_num::Exact;
use form::{Batch, State};
use lists::push_within;
use pricing_oracle::SearchRoom;
use simplex::{Budget, RunStop};

/// Rounds over these states and each state that a round finds, until a tree closes.
fn close<N: Exact>(
    batch: &Batch,
    budget: &mut Budget,
    states: &mut Vec<State>,
    room: &mut SolveRoom<N>,
    search: &mut SearchRoom<N>,
) -> Result<Claim<N>, RunStop>
    requires limits { IsWithinLimits batch.now }
    requires room { IsRoundsRoom batch.now budget.old.limit states.old.items
        (vec_capacity states.old) room.old search.old }
    ensures run { IsClearedAnswer N.fraction (rounds
        (limits_of (unsigned_abs N.LIMIT) budget.old.limit) batch.now.underlyings
        batch.now.orders budget.old.spent) room.new search.new.tree result budget.new.spent }
    ensures limit { budget.new.limit ≡ budget.old.limit }
{
    // Each round spends a unit, so that the last one here wants more than the budget has.
    for _round in 0..u64::from(budget.limit) + 1 {
        match round(batch, states.as_slice(), budget, room, search)? {
            RoundEnd::Closed(read) => return Ok(read),
            RoundEnd::Violated(state) => push_within(states, state),
        }
    }
    Err(RunStop::Budget)
}

// The joint solve on several underlyings, before the sums of the verdict: a master program over
// some states and a search for one at which its liability is not enough take turns. (Wang et al.,
// EC 2021, where an integer program finds the states.)
pub(crate) fn solve_rounds<N: Exact>(
    batch: &Batch,
    budget: &mut Budget,
    states: &mut Vec<State>,
    solve: &mut SolveRoom<N>,
    search: &mut SearchRoom<N>,
) -> Result<Solution<N>, RunStop>
    requires limits { IsWithinLimits batch.now }
    requires room { IsRoundsRoom batch.now budget.old.limit states.old.items
        (vec_capacity states.old) solve.old search.old }
    ensures run { IsJointAnswer N.fraction (unjudged_run
        (limits_of (unsigned_abs N.LIMIT) budget.old.limit) batch.now.underlyings
        batch.now.orders budget.old.spent) (as_stopped result) budget.new.spent }
    ensures joint { IfOk result (IsJointOf batch.now) }
    ensures limit { budget.new.limit ≡ budget.old.limit }
{
    let read = close(batch, budget, states, solve, search)?;
    let tree = search.take_tree();
    Ok(take_joint(solve, read, Cover::Tree(tree)))
}
