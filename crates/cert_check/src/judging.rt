//! The verdict: the first condition that fails, or the first step that does not fit, or yes.

ghost use Rattle.std.specs.Prelude.{◌≡◌, ◌≤◌, All, length};
ghost use Rattle.frac.specs.Range.{limit};
ghost use Rattle.frac.specs.Value.{fraction_of};
ghost use Rattle.form.specs.Limits.{HasItsForms};
ghost use Rattle.sign_tree.specs.Legs.{leg_count};
ghost use Rattle.sign_tree.specs.declared.closing.TheConstants.{MAX_SIGNS};
ghost use Rattle.cert_check.specs.Points.{IsOnStates};
ghost use Rattle.cert_check.specs.Conditions.{IfNo, IsFirstUnmet, Meets, OnYes, conditions};
ghost use Rattle.cert_check.specs.Events.{cover_condition_holds, judge_bound, judge_cover, judge_mark, judge_measure, verdict_of};
ghost use Rattle.cert_check.specs.Laws.{IsCovered, IsMeasuredIfOptimal, IsProvedIfOptimal};
ghost use Rattle.cert_check.specs.Tests.{AreSigns};
ghost use Rattle.cert_check.specs.Shape.{IsMarkOn};

use crate::checks::{bound_holds, measure_holds, surplus_holds};
use crate::cover::mark_covers;
use crate::measures::Measure;
use crate::outcome::{FailedCondition, Mark, Outcome, Verdict};
use crate::shape::{are_fills, has_shape};
use exact_num::Wide;
use form::Batch;
use frac::Frac128;

/// The judgement of an outcome. Yes where each condition holds: the shape of the batch, the fills
/// from 0 to their quantities, the cover, and with the mark optimal the measure and its bound. `No`
/// has the first condition that fails, `Wide` the first step that does not fit where no condition
/// failed before. A yes shows that the fills cover the claimed surplus at every settlement and that
/// it is not below 0; with the mark optimal also that no fractional fills cover more. A no shows
/// that its condition does not hold, and that each before it does. The batch is on 1 to 8
/// underlyings, and there are as many signs as the orders have legs, at most 1,024; what they held
/// does not matter. Takes no memory.
pub fn verdict(batch: &Batch, outcome: &Outcome, signs: &mut [i8]) -> Verdict
    requires underlyings { (1 ≤ batch.now.underlyings) × (batch.now.underlyings ≤ 8) }
    requires signs { length signs.old ≡ leg_count batch.now.orders }
    requires few { leg_count batch.now.orders ≤ MAX_SIGNS }

    // The first event in the order of the conditions, over sums of 127 bits.
    ensures steps { result ≡ verdict_of limit batch.now outcome.now }

    ensures met { OnYes result (All (Meets batch.now outcome.now) conditions) }
    ensures unmet { IfNo result (IsFirstUnmet batch.now outcome.now) }

    ensures covers { OnYes result (IsCovered batch.now outcome.now) }
    ensures measured { OnYes result (IsMeasuredIfOptimal batch.now outcome.now) }
    ensures proved { OnYes result (IsProvedIfOptimal batch.now outcome.now) }
{
    if !has_shape(batch, outcome) {
        return Verdict::No(FailedCondition::BatchShape);
    }
    if !are_fills(batch.orders.as_slice(), outcome.fills.as_slice()) {
        return Verdict::No(FailedCondition::Fill);
    }
    judge_cover(batch, outcome, signs)
}

// Whether the cover holds, and then what the mark asks.
fn judge_cover(batch: &Batch, outcome: &Outcome, signs: &mut [i8]) -> Verdict
    requires forms { HasItsForms batch.now }
    requires fills { length outcome.now.fills ≡ length batch.now.orders }
    requires mark { IsMarkOn batch.now.underlyings outcome.now.mark }
    requires signs { AreSigns batch.now.orders (length signs.old) }
    ensures { result ≡ judge_cover limit batch.now outcome.now }
{
    match is_covered(batch, outcome, signs) {
        Ok(true) => judge_mark(batch, &outcome.claim.surplus, &outcome.mark),
        Ok(false) => Verdict::No(FailedCondition::Cover),
        Err(wide) => Verdict::Wide(wide),
    }
}

// Whether the surplus is what it should be and the liability is enough.
fn is_covered(batch: &Batch, outcome: &Outcome, signs: &mut [i8]) -> Result<bool, Wide>
    requires forms { HasItsForms batch.now }
    requires fills { length outcome.now.fills ≡ length batch.now.orders }
    requires mark { IsMarkOn batch.now.underlyings outcome.now.mark }
    requires signs { AreSigns batch.now.orders (length signs.old) }
    ensures { result ≡ cover_condition_holds limit batch.now outcome.now }
{
    let fills = outcome.fills.as_slice();
    if !surplus_holds(batch.orders.as_slice(), fills, &outcome.claim)? {
        return Ok(false);
    }
    mark_covers(batch, fills, &outcome.claim.liability, &outcome.mark, signs)
}

// With the mark optimal, whether the measure proves the surplus.
fn judge_mark(batch: &Batch, surplus: &Frac128, mark: &Mark) -> Verdict
    requires forms { HasItsForms batch.now }
    requires mark { IsMarkOn batch.now.underlyings mark.now }
    ensures { result ≡ judge_mark limit batch.now.orders (fraction_of surplus.now) mark.now }
{
    match mark {
        Mark::Optimal { measure, .. } => judge_measure(batch, surplus, measure),
        Mark::Wide(_) | Mark::Budget => Verdict::Yes,
    }
}

// Whether the measure is one, and its bound the surplus.
fn judge_measure(batch: &Batch, surplus: &Frac128, measure: &Measure) -> Verdict
    requires forms { HasItsForms batch.now }
    requires states { IsOnStates batch.now.underlyings measure.now }
    ensures { result ≡ judge_measure limit batch.now.orders (fraction_of surplus.now) measure.now }
{
    match measure_holds(measure) {
        Ok(true) => judge_bound(batch, surplus, measure),
        Ok(false) => Verdict::No(FailedCondition::Measure),
        Err(wide) => Verdict::Wide(wide),
    }
}

// Whether the bound of the measure is the surplus.
fn judge_bound(batch: &Batch, surplus: &Frac128, measure: &Measure) -> Verdict
    requires forms { HasItsForms batch.now }
    requires states { IsOnStates batch.now.underlyings measure.now }
    ensures { result ≡ judge_bound limit batch.now.orders (fraction_of surplus.now) measure.now }
{
    match bound_holds(batch, measure, surplus) {
        Ok(true) => Verdict::Yes,
        Ok(false) => Verdict::No(FailedCondition::Bound),
        Err(wide) => Verdict::Wide(wide),
    }
}
