//! The clearing of a batch in narrow numbers first, and where one does not fit, in 128 bits.
ghost use Rattle.std.specs.Prelude.{◌≡◌, ◌≤◌, IfOk, length, map, unsigned_abs, vec_capacity};
ghost use Rattle.frac.specs.Range.{limit as largest, narrow_limit};
ghost use Rattle.frac.specs.Value.{fraction_of};
ghost use Rattle.clearing_model.specs.Certificate.{AreFractionFills};
ghost use Rattle.form.specs.declared.limits.TheConstants.{MAX_BUDGET};
ghost use Rattle.form.specs.Limits.{IsWithinLimits};
ghost use Rattle.cert_check.specs.declared.outcome.Verdict.TheVariants.{Yes};
ghost use Rattle.cert_check.specs.Conditions.{IfOptimal};
ghost use Rattle.cert_check.specs.Events.{verdict_of};
ghost use Rattle.cert_check.specs.Laws.{IsCovered, IsMeasured, IsProved};
ghost use Rattle.clearing.specs.Outcome.{HasEnoughUnits, IsMarked, outcome_of};
ghost use Rattle.clearing.specs.Rooms.{IsClearRoom};
ghost use Rattle.narrow_clearing.specs.Passes.{IsPass, unjudged_in};
ghost use Rattle.narrow_clearing.specs.Rooms.{IsFirstRoom};
ghost use Rattle.constraint_generation.specs.Rooms.{IsJointRoom};

use crate::passes::Pass;
use crate::room::{FirstRoom, Room};
use cert_check::Outcome;
use clearing::ClearRoom;
use constraint_generation::{JointRoom, widened};
use exact_num::Exact;
use form::Batch;
use frac::Frac128;
use simplex::{Budget, RunStop};
use std::alloc::{AllocError, Global};

/// The outcome of a batch by a run in these numbers, where each number before the sums of the
/// verdict fits, and else by a run in 128 bits. The sums are in 128 bits.
fn outcome_by<N: Exact>(
    batch: &Batch,
    limit: u32,
    first: &mut JointRoom<N>,
    fills: Vec<Frac128>,
    broad: &mut ClearRoom,
) -> (Outcome, Pass)
    requires within { IsWithinLimits batch.now }
    requires limit { limit ≤ MAX_BUDGET }
    requires narrow { unsigned_abs N.LIMIT ≤ largest }
    requires first { IsJointRoom batch.now limit first.old }
    requires fills { length batch.now.orders ≤ vec_capacity fills }
    requires broad { IsClearRoom batch.now limit broad.old }
    ensures outcome { result.0 ≡ outcome_of batch.now limit }
    ensures pass { IsPass (unjudged_in (unsigned_abs N.LIMIT) batch.now limit) result.1 }
{
    let mut budget = Budget::new(limit);
    match first.solve_unjudged(batch, &mut budget) {
        Ok(joint) => {
            let solved = Ok(widened(joint, fills));
            let outcome = broad.outcome_after(batch, limit, solved, budget.spent);
            (outcome, Pass::Narrow)
        }
        Err(RunStop::Budget) => {
            let outcome = broad.outcome_after(batch, limit, Err(RunStop::Budget), budget.spent);
            (outcome, Pass::Narrow)
        }
        Err(RunStop::Wide { .. }) => (broad.clear(batch, limit), Pass::Broad),
    }
}

/// The same in given room.
fn outcome_first<N: Exact>(batch: &Batch, limit: u32, room: FirstRoom<N>) -> (Outcome, Pass)
    requires within { IsWithinLimits batch.now }
    requires limit { limit ≤ MAX_BUDGET }
    requires narrow { unsigned_abs N.LIMIT ≤ largest }
    requires room { IsFirstRoom batch.now limit room }
    ensures outcome { result.0 ≡ outcome_of batch.now limit }
    ensures pass { IsPass (unjudged_in (unsigned_abs N.LIMIT) batch.now limit) result.1 }
{
    let FirstRoom {
        mut first,
        fills,
        mut broad,
    } = room;
    outcome_by(batch, limit, &mut first, fills, &mut broad)
}

/// Clears a batch in given room as `clear` does, and tells in which numbers: the master programs,
/// searches and rounds are run in 64 bits first. It takes no memory, and has no other answer.
pub fn clear_in(batch: &Batch, limit: u32, room: Room) -> (Outcome, Pass)
    requires within { IsWithinLimits batch.now }
    requires limit { (1 ≤ limit) × (limit ≤ MAX_BUDGET) }
    requires room { IsFirstRoom batch.now limit room }

    // The clauses of `clear`.
    ensures outcome { result.0 ≡ outcome_of batch.now limit }
    ensures marked { IsMarked batch.now limit result.0 }
    ensures within { AreFractionFills batch.now.orders (map fraction_of result.0.fills) }
    ensures covers { IsCovered batch.now result.0 }
    ensures measured { IfOptimal result.0.mark
        (λ cover measure. IsMeasured batch.now result.0 measure) }
    ensures greatest { IfOptimal result.0.mark
        (λ cover measure. IsProved batch.now result.0) }
    ensures yes { verdict_of largest batch.now result.0 ≡ Yes }
    ensures choices { HasEnoughUnits batch.now limit result.0 }

    // Narrow exactly where the run in 64 bits before the sums meets no misfit.
    ensures pass { IsPass (unjudged_in narrow_limit batch.now limit) result.1 }
{
    outcome_first(batch, limit, room)
}

/// Clears a batch as `clear` does, and tells in which numbers: the master programs, searches and
/// rounds are run in N first. Where each of their numbers fits, the pass is narrow, and only the
/// sums of the verdict are in 128 bits. Where one does not, the whole run is done again in 128
/// bits, from no unit spent, and the pass is broad. The outcome is the same in both. All memory is
/// taken before the first step.
pub fn clear_first<N: Exact>(
    alloc: Global,
    batch: &Batch,
    limit: u32,
) -> Result<(Outcome, Pass), AllocError>
    requires within { IsWithinLimits batch.now }
    requires limit { (1 ≤ limit) × (limit ≤ MAX_BUDGET) }
    requires narrow { unsigned_abs N.LIMIT ≤ largest }

    // The clauses of `clear`.
    ensures outcome { IfOk result (λ cleared. cleared.0 ≡ outcome_of batch.now limit) }
    ensures marked { IfOk result (λ cleared. IsMarked batch.now limit cleared.0) }
    ensures within { IfOk result (λ cleared.
        AreFractionFills batch.now.orders (map fraction_of cleared.0.fills)) }
    ensures covers { IfOk result (λ cleared. IsCovered batch.now cleared.0) }
    ensures measured { IfOk result (λ cleared. IfOptimal cleared.0.mark
        (λ cover measure. IsMeasured batch.now cleared.0 measure)) }
    ensures greatest { IfOk result (λ cleared. IfOptimal cleared.0.mark
        (λ cover measure. IsProved batch.now cleared.0)) }
    ensures yes { IfOk result (λ cleared. verdict_of largest batch.now cleared.0 ≡ Yes) }
    ensures choices { IfOk result (λ cleared. HasEnoughUnits batch.now limit cleared.0) }

    // Narrow exactly where the run in N before the sums meets no misfit.
    ensures pass { IfOk result (λ cleared.
        IsPass (unjudged_in (unsigned_abs N.LIMIT) batch.now limit) cleared.1) }
{
    let room = FirstRoom::<N>::new(alloc, batch, limit)?;
    Ok(outcome_first(batch, limit, room))
}
