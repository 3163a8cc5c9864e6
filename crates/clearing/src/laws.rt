//! Laws over the definition of the outcome: each is the contract of a function that does nothing.
ghost use Rattle.clearing.specs.Laws.{OptimalIsGreatest, OutcomesAreCovered, OutcomesAreJudgedYes, OutcomesAreMarked, OutcomesAreMeasured, OutcomesAreWithin, OutcomesMeetAll, UnitsSuffice};

/// The outcome of a batch meets each condition of a certificate.
pub fn outcomes_meet_all()
    ensures { OutcomesMeetAll }
{}

/// Each fill of an outcome is from 0 to the quantity of its order.
pub fn outcomes_are_within()
    ensures { OutcomesAreWithin }
{}

/// The fills of an outcome cover its surplus at every settlement, and it is not below 0.
pub fn outcomes_are_covered()
    ensures { OutcomesAreCovered }
{}

/// With the mark optimal the measure is one of the batch's underlyings, and its bound is the
/// surplus,
pub fn outcomes_are_measured()
    ensures { OutcomesAreMeasured }
{}

/// so that no fractional fills cover more.
pub fn optimal_is_greatest()
    ensures { OptimalIsGreatest }
{}

/// The verdict on an outcome is yes: each sum of it fits.
pub fn outcomes_are_judged_yes()
    ensures { OutcomesAreJudgedYes }
{}

/// The mark of an outcome and its units are those of the end of its run: what it cleared, the step
/// that did not fit, or a unit wanted beyond the limit.
pub fn outcomes_are_marked()
    ensures { OutcomesAreMarked }
{}

/// With as many units as there are ways to choose the basic variables of its master program, the
/// run of a batch on one underlying does not end for want of one.
pub fn units_suffice()
    ensures { UnitsSuffice }
{}
