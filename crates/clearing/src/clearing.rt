//! The clearing of a batch: a run, and at its end the outcome that it proves, or the match of each
//! bundle by itself.
ghost use Rattle.std.specs.Prelude.{◌≡◌, ◌≤◌, IfOk, length, map};
ghost use Rattle.frac.specs.Range.{limit as largest};
ghost use Rattle.frac.specs.Value.{fraction_of};
ghost use Rattle.clearing_model.specs.Certificate.{AreFractionFills};
ghost use Rattle.form.specs.declared.limits.TheConstants.{MAX_BUDGET};
ghost use Rattle.form.specs.Limits.{IsWithinLimits};
ghost use Rattle.cert_check.specs.declared.outcome.Verdict.TheVariants.{Yes};
ghost use Rattle.cert_check.specs.Conditions.{IfOptimal};
ghost use Rattle.cert_check.specs.Events.{verdict_of};
ghost use Rattle.cert_check.specs.Laws.{IsCovered, IsMeasured, IsProved};
ghost use Rattle.cert_check.specs.Tests.{AreSigns};
ghost use Rattle.constraint_generation.specs.Answers.{IsJointAnswer, IsJointOf, IsJudgedAnswer, as_stopped};
ghost use Rattle.constraint_generation.specs.Run.{CoveredReading};
ghost use Rattle.simplex_run.specs.Ending.{Ending};
ghost use Rattle.clearing.specs.Outcome.{HasEnoughUnits, IsMarked, IsOptimalOutcome, judged, outcome_of, run_of};
ghost use Rattle.clearing.specs.Rooms.{IsClearRoom, IsEndRoom, IsMatchOf};

use crate::fallback::{Matched, fallback};
use crate::room::ClearRoom;
use cert_check::{Claim, Fills, Mark, Outcome};
use constraint_generation::{Solution, tests_hold};
use form::Batch;
use frac::Frac128;
use simplex::{Budget, RunStop};
use std::alloc::{AllocError, Global};

/// What a solve found, as the outcome that it proves.
fn optimal_outcome(joint: Solution<Frac128>, units: u32) -> Outcome
    ensures { IsOptimalOutcome joint units result }
{
    let Solution {
        fills,
        liability,
        surplus,
        cover,
        measure,
    } = joint;
    Outcome {
        fills: Fills::from_vec(fills),
        claim: Claim { liability, surplus },
        mark: Mark::Optimal { cover, measure },
        units,
    }
}

/// The outcome at the end of a run with at most `limit` units, of which `units` are spent.
fn outcome_at(
    limit: u32,
    end: Result<Solution<Frac128>, RunStop>,
    units: u32,
    matched: Matched,
) -> Outcome
    ensures { (batch : Batch) → IsMatchOf batch.orders matched
        → IsJointAnswer fraction_of (run_of batch limit) (as_stopped end) units
        → result ≡ outcome_of batch limit }
{
    match end {
        Ok(joint) => optimal_outcome(joint, units),
        Err(RunStop::Wide { unit, wide }) => fallback(matched, Mark::Wide(wide), unit),
        Err(RunStop::Budget) => fallback(matched, Mark::Budget, limit),
    }
}

/// The sums of the verdict on a solution, with a sign for each leg to work in: the solution, where
/// each step fits; `unit` units are spent. `Wide` comes at the first step that does not fit. It
/// takes no memory.
fn judge(
    batch: &Batch,
    joint: Solution<Frac128>,
    unit: u32,
    signs: &mut [i8],
) -> Result<Solution<Frac128>, RunStop>
    requires limits { IsWithinLimits batch.now }
    requires joint { IsJointOf batch.now joint }
    requires signs { AreSigns batch.now.orders (length signs.old) }
    ensures { IsJudgedAnswer fraction_of batch.now joint (as_stopped result) unit }
{
    let claim = Claim {
        liability: joint.liability,
        surplus: joint.surplus,
    };
    match tests_hold(
        batch,
        &joint.fills,
        &claim,
        &joint.cover,
        &joint.measure,
        signs,
    ) {
        Ok(_) => Ok(joint),
        Err(wide) => Err(RunStop::Wide { unit, wide }),
    }
}

/// The end of a run after the sums of the verdict, which are done where it has found a solution;
/// `units` are spent.
fn judged(
    batch: &Batch,
    solved: Result<Solution<Frac128>, RunStop>,
    units: u32,
    signs: &mut [i8],
) -> Result<Solution<Frac128>, RunStop>
    requires within { IsWithinLimits batch.now }
    requires joint { IfOk solved (IsJointOf batch.now) }
    requires signs { AreSigns batch.now.orders (length signs.old) }
    ensures { (end : Ending CoveredReading) → IsJointAnswer fraction_of end (as_stopped solved) units
        → IsJointAnswer fraction_of (judged batch.now end) (as_stopped result) units }
{
    judge(batch, solved?, units, signs)
}

impl ClearRoom {
    /// Clears the batch in this room by a run in 128 bits: the solver tries rows of whole numbers
    /// first, and a run in narrow fractions before it would only cost time. What more there is to
    /// say of the outcome follows from its definition by the laws. It takes no memory, and has no
    /// other answer.
    pub fn clear(&mut self, batch: &Batch, limit: u32) -> Outcome
        requires within { IsWithinLimits batch.now }
        requires limit { limit ≤ MAX_BUDGET }
        requires room { IsClearRoom batch.now limit self.old }
        ensures { result ≡ outcome_of batch.now limit }
    {
        let mut budget = Budget::new(limit);
        let solved = self.run.solve_unjudged(batch, &mut budget);
        self.outcome_after(batch, limit, solved, budget.spent)
    }

    /// The outcome of the batch after a run before the sums of the verdict has ended so, with
    /// `units` of `limit` units spent: the sums come last, in 128 bits, and where the run or one of
    /// them stops, the outcome is the match. It takes no memory.
    pub fn outcome_after(
        &mut self,
        batch: &Batch,
        limit: u32,
        solved: Result<Solution<Frac128>, RunStop>,
        units: u32,
    ) -> Outcome
        requires within { IsWithinLimits batch.now }
        requires joint { IfOk solved (IsJointOf batch.now) }
        requires room { IsEndRoom batch.now self.old }
        ensures { (end : Ending CoveredReading) → IsJointAnswer fraction_of end (as_stopped solved) units
            → run_of batch.now limit ≡ judged batch.now end → result ≡ outcome_of batch.now limit }
    {
        let end = judged(batch, solved, units, &mut self.signs);
        outcome_at(limit, end, units, self.matched.take())
    }
}

/// Clears a batch: the fills that earn the greatest surplus with their proof, or where the run
/// stops, at a number that does not fit or for want of a unit, the match of each bundle by itself.
/// The batch is within the limits of the exchange, on 1 to 8 underlyings, and at most `limit` units
/// of work are spent. All memory is taken before the first step. The only error is want of memory.
pub fn clear(alloc: Global, batch: &Batch, limit: u32) -> Result<Outcome, AllocError>
    requires within { IsWithinLimits batch.now }
    requires limit { (1 ≤ limit) × (limit ≤ MAX_BUDGET) }

    // What the definition computes, with the mark and the units of the end of the run.
    ensures outcome { IfOk result (λ outcome. outcome ≡ outcome_of batch.now limit) }
    ensures marked { IfOk result (IsMarked batch.now limit) }

    // Each fill is from 0 to its quantity; the fills cover the surplus at every settlement, and it
    // is not below 0.
    ensures within { IfOk result (λ outcome.
        AreFractionFills batch.now.orders (map fraction_of outcome.fills)) }
    ensures covers { IfOk result (IsCovered batch.now) }

    // With the mark optimal the measure proves the surplus, and no fractional fills cover more.
    ensures measured { IfOk result (λ outcome.
        IfOptimal outcome.mark (λ cover measure. IsMeasured batch.now outcome measure)) }
    ensures greatest { IfOk result (λ outcome.
        IfOptimal outcome.mark (λ cover measure. IsProved batch.now outcome)) }

    ensures yes { IfOk result (λ outcome. verdict_of largest batch.now outcome ≡ Yes) }

    // On one underlying, with at least as many units as `linear_programs::choices` has for the batch's
    // master program, the mark is not budget.
    ensures choices { IfOk result (HasEnoughUnits batch.now limit) }
{
    let mut room = ClearRoom::new(alloc, batch, limit)?;
    Ok(room.clear(batch, limit))
}
