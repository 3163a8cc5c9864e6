//! What a verdict shows: the contracts of functions that do nothing.

ghost use Rattle.cert_check.specs.Laws.{ConditionsCover, ConditionsMeasure, ConditionsProve, VerdictsDecide, YesCovers, YesHasItsMeasure, YesOnOptimalProves};
ghost use Rattle.cert_check.specs.Worked.{VerdictsAsWorked};

/// A yes meets each condition of the model, and a no has the first that is not met.
pub fn verdicts_decide()
    ensures { VerdictsDecide }
{}

/// Where each condition is met the fills cover the claimed surplus, which is not below 0.
pub fn conditions_cover()
    ensures { ConditionsCover }
{}

/// And with the mark optimal the measure is one of the batch's underlyings whose bound is the
/// claimed surplus,
pub fn conditions_measure()
    ensures { ConditionsMeasure }
{}

/// and the claimed surplus is the greatest.
pub fn conditions_prove()
    ensures { ConditionsProve }
{}

/// A yes on any mark: the fills cover the claimed surplus, which is not below 0.
pub fn yes_covers()
    ensures { YesCovers }
{}

/// A yes on the mark optimal has a measure of the batch's underlyings whose bound is the claimed
/// surplus.
pub fn yes_has_its_measure()
    ensures { YesHasItsMeasure }
{}

/// A yes on the mark optimal: the fills cover the claimed surplus, which is not below 0 and the
/// greatest.
pub fn yes_on_optimal_proves()
    ensures { YesOnOptimalProves }
{}

/// The butterfly by two sells and the spread covered by two options, sound and changed, are judged
/// as they are worked by hand.
pub fn verdicts_as_worked()
    ensures { VerdictsAsWorked }
{}
