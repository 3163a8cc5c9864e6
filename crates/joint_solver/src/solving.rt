//! The joint solve.
ghost use Rattle.std.specs.Prelude.{◌≡◌, ◌≤◌, Err, IfOk, length, unsigned_abs, vec_capacity};
ghost use Rattle.form.specs.declared.limits.TheConstants.{MAX_BUDGET};
ghost use Rattle.form.specs.Limits.{IsWithinLimits};
ghost use Rattle.cert_check.specs.Tests.{AreSigns};
ghost use Rattle.constraint_generation.specs.Answers.{IsJointAnswer, as_stopped, limits_of};
ghost use Rattle.constraint_generation.specs.Rooms.{IsJointRoom};
ghost use Rattle.constraint_generation.specs.Run.{joint_run};
ghost use Rattle.joint_solver.specs.Best.{IsBestOf};

use crate::judging::judge_widened;
use constraint_generation::{JointRoom, Solution};
use exact_num::Exact;
use form::Batch;
use frac::Frac128;
use sign_tree::leg_count;
use simplex::{Budget, RunStop, SolveStop};
use std::alloc::Global;

// The whole run in given room: the run of `solve_unjudged`, and last the sums of the verdict, for
// which there are a list for the fills in 128 bits and a sign for each leg.
fn judged_in<N: Exact>(
    room: &mut JointRoom<N>,
    batch: &Batch,
    budget: &mut Budget,
    fills: Vec<Frac128>,
    signs: &mut [i8],
) -> Result<Solution<N>, RunStop>
    requires limits { IsWithinLimits batch.now }
    requires room { IsJointRoom batch.now budget.old.limit room.old }
    requires fills { length batch.now.orders ≤ vec_capacity fills }
    requires signs { AreSigns batch.now.orders (length signs.old) }
    ensures run { IsJointAnswer N.fraction (joint_run
        (limits_of (unsigned_abs N.LIMIT) budget.old.limit) batch.now.underlyings
        batch.now.orders budget.old.spent) (as_stopped result) budget.new.spent }
    ensures limit { budget.new.limit ≡ budget.old.limit }
{
    let joint = room.solve_unjudged(batch, budget)?;
    judge_widened(batch, joint, budget.spent, fills, signs)
}

// The same in room that it lets go.
fn solve_judged<N: Exact>(
    batch: &Batch,
    budget: &mut Budget,
    mut room: JointRoom<N>,
    fills: Vec<Frac128>,
    signs: &mut [i8],
) -> Result<Solution<N>, RunStop>
    requires limits { IsWithinLimits batch.now }
    requires room { IsJointRoom batch.now budget.old.limit room }
    requires fills { length batch.now.orders ≤ vec_capacity fills }
    requires signs { AreSigns batch.now.orders (length signs.old) }
    ensures run { IsJointAnswer N.fraction (joint_run
        (limits_of (unsigned_abs N.LIMIT) budget.old.limit) batch.now.underlyings
        batch.now.orders budget.old.spent) (as_stopped result) budget.new.spent }
    ensures limit { budget.new.limit ≡ budget.old.limit }
{
    judged_in(&mut room, batch, budget, fills, signs)
}

/// The fills of the batch with the greatest surplus, in ticks, and the certificate that shows it:
/// the reference run, which is that of `JointRoom::solve_unjudged` and last the sums of the verdict
/// in 128 bits.
///
/// The fills are from 0 to their quantities and cover the surplus at every settlement, and no
/// fractional fills cover more; the verdict on them, with the cover and the measure, is yes. `Wide`
/// and `Budget` come as there, and `Wide` at the first step of the sums that does not fit. All room
/// is taken first, and for want of it `Memory` comes before the first unit.
pub fn solve_joint<N: Exact>(
    alloc: Global,
    batch: &Batch,
    budget: &mut Budget,
) -> Result<Solution<N>, SolveStop>
    requires limits { IsWithinLimits batch.now }
    requires units { budget.old.limit ≤ MAX_BUDGET }
    ensures run { IsJointAnswer N.fraction (joint_run
        (limits_of (unsigned_abs N.LIMIT) budget.old.limit) batch.now.underlyings
        batch.now.orders budget.old.spent) result budget.new.spent }
    ensures holds { IfOk result (IsBestOf N.fraction batch.now) }
    ensures memory { result ≡ Err SolveStop.Memory → budget.new.spent ≡ budget.old.spent }
    ensures limit { budget.new.limit ≡ budget.old.limit }
{
    let orders = batch.orders.as_slice();
    let fills = Vec::with_capacity(alloc, orders.len())?;
    let mut signs = vec![in alloc; 0_i8; leg_count(orders)]?;
    let room = JointRoom::new(alloc, batch, budget.limit)?;
    Ok(solve_judged(batch, budget, room, fills, &mut signs)?)
}
