//! The joint solve on one underlying.
ghost use Rattle.std.specs.Prelude.{◌≡◌, IfOk, unsigned_abs};
ghost use Rattle.form.specs.Limits.{IsWithinLimits};
ghost use Rattle.constraint_generation.specs.Answers.{IsJointAnswer, IsJointOf, as_stopped, limits_of};
ghost use Rattle.constraint_generation.specs.Rooms.{IsLineRoom};
ghost use Rattle.constraint_generation.specs.Run.{unjudged_run};

use crate::master_solve::solve_over;
use crate::solution::Solution;
use crate::solve_room::{SolveRoom, take_joint};
use cert_check::Cover;
use exact_num::Exact;
use form::{Batch, State};
use simplex::{Budget, RunStop};

// The joint solve on one underlying, before the sums of the verdict: one master program over the
// states of the line is solved, and its optimum is read off. (The matching program of Wang et al.,
// EC 2021.)
pub(crate) fn solve_line<N: Exact>(
    batch: &Batch,
    budget: &mut Budget,
    states: &[State],
    solve: &mut SolveRoom<N>,
) -> Result<Solution<N>, RunStop>
    requires limits { IsWithinLimits batch.now }
    requires room { IsLineRoom batch.now states.now solve.old }
    ensures run { IsJointAnswer N.fraction (unjudged_run
        (limits_of (unsigned_abs N.LIMIT) budget.old.limit) batch.now.underlyings
        batch.now.orders budget.old.spent) (as_stopped result) budget.new.spent }
    ensures joint { IfOk result (IsJointOf batch.now) }
    ensures limit { budget.new.limit ≡ budget.old.limit }
{
    let (_first, later) = states.split_at(1);
    let read = solve_over(batch, later, budget, solve)?;
    Ok(take_joint(solve, read, Cover::Line))
}
