//! What the reference run implies: the contracts of functions that do nothing.
ghost use Rattle.constraint_generation.specs.Laws.{ClearedIsGreatest, ClearedPassesTheVerdict, JointRunsAreTheSame, NoRunIsWithoutEnd, UnitsSufficeOnLine, UnjudgedRunsAreTheSame};
ghost use Rattle.constraint_generation.specs.Worked.{ButterflyCleared, DearCoverIsLeft, EqualPricesAreLeft, LargeBatchIsTooWide, LowerStrikeCleared, NoOrderCleared, OneOptionCleared, OneUnitIsTooFew, SpreadCleared};

/// What a run clears is covered at every settlement, by the line of one underlying or by a tree;
/// its measure proves its surplus, and no fills cover more, whatever the limits and the units.
pub fn cleared_is_greatest()
    ensures { ClearedIsGreatest }
{}

/// Each run ends with what it clears, or stops at a step that does not fit or for want of a unit.
pub fn no_run_is_without_end()
    ensures { NoRunIsWithoutEnd }
{}

/// The verdict on what a run clears is yes.
pub fn cleared_passes_the_verdict()
    ensures { ClearedPassesTheVerdict }
{}

/// A run that meets no misfit is the same with each greater limit of the solver's numbers: with
/// what it clears, or where it ends for want of a unit, and as many units spent.
pub fn runs_are_the_same()
    ensures unjudged { UnjudgedRunsAreTheSame }
    ensures joint { JointRunsAreTheSame }
{}

/// On one underlying as many units suffice as there are ways to choose the basic variables of the
/// master program.
pub fn units_suffice_on_line()
    ensures { UnitsSufficeOnLine }
{}

/// The definition computes the ends of the runs of worked batches,
pub fn worked_batches_are_run()
    ensures no_order { NoOrderCleared }
    ensures one_option { OneOptionCleared }
    ensures lower_strike { LowerStrikeCleared }
    ensures butterfly { ButterflyCleared }
    ensures spread { SpreadCleared }
{}

/// and of those of which nothing is filled, or whose run stops.
pub fn worked_batches_are_left()
    ensures equal_prices { EqualPricesAreLeft }
    ensures dear_cover { DearCoverIsLeft }
    ensures one_unit { OneUnitIsTooFew }
    ensures too_wide { LargeBatchIsTooWide }
{}
