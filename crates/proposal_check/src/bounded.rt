//! The bound of a measure, and what is claimed of it.

ghost use Rattle.std.specs.Prelude.{◌≡◌};
ghost use Rattle.frac.specs.Range.{limit};
ghost use Rattle.frac.specs.Value.{fraction_of};
ghost use Rattle.form.specs.Limits.{HasItsForms};
ghost use Rattle.cert_check.specs.Points.{IsOnStates};
ghost use Rattle.proposal_check.specs.Proposals.{as_fraction, compared, measured_bound};

use crate::covers::BoundFailure;
use cert_check::{FailedCondition, Measure, Verdict, bound, measure_holds};
use form::Batch;
use frac::Frac128;

// The bound of the measure, where it is one.
pub(crate) fn measured_bound(batch: &Batch, measure: &Measure) -> Result<Frac128, BoundFailure>
    requires forms { HasItsForms batch.now }
    requires states { IsOnStates batch.now.underlyings measure.now }
    ensures { as_fraction result ≡ measured_bound limit batch.now.orders measure.now }
{
    if !measure_holds(measure)? {
        return Err(BoundFailure::No(FailedCondition::Measure));
    }
    Ok(bound(batch, measure)?)
}

// The judgement where the bound is said to be this number.
pub(crate) fn compared(bound: Result<Frac128, BoundFailure>, claimed: &Frac128) -> Verdict
    ensures { result ≡ compared (as_fraction bound) (fraction_of claimed.now) }
{
    match bound {
        Ok(total) => {
            if total == *claimed {
                Verdict::Yes
            } else {
                Verdict::No(FailedCondition::Bound)
            }
        }
        Err(BoundFailure::No(condition)) => Verdict::No(condition),
        Err(BoundFailure::Wide(wide)) => Verdict::Wide(wide),
    }
}
