//! What the definition of the master program implies.
ghost use Rattle.master_program.specs.Laws.{MasterIsBounded, MasterIsProgram, QuantityRowsAreUnitRows, SameWithGreaterLimit, StepsGiveMaster};
ghost use Rattle.master_program.specs.Lowest.{SolvesAreLowest};
ghost use Rattle.master_program.specs.Solve.{SolvesAreTheSame};
ghost use Rattle.master_program.specs.Worked.{ButterflyByTwoSells, CoverTooDear, EmptyBatch, EqualPricesStay, LowerStrikeCovers, OneOptionMatched, PutAboveItsStrike, SecondRound, SpreadIsCovered, SurplusTooWide, WholeSolves};

/// Where each step fits, the steps give the program of whole numbers.
pub fn steps_give_master()
    ensures { StepsGiveMaster }
{}

/// The rows of quantities are unit rows, one after another.
pub fn quantity_rows_are_unit_rows()
    ensures { QuantityRowsAreUnitRows }
{}

/// The master program over any states is a program with right sides not below 0, so that its run
/// starts feasible.
pub fn master_is_program()
    ensures { MasterIsProgram }
{}

/// In no direction does its objective rise without an end, so that no run of it ends unbounded.
pub fn master_is_bounded()
    ensures { MasterIsBounded }
{}

/// A greater limit changes neither the program nor what is read off, where each step fits.
pub fn same_with_greater_limit()
    ensures { SameWithGreaterLimit }
{}

/// So a solve without a misfit ends alike with each greater limit: the same reading, or the same
/// want of a unit, and as many units spent.
pub fn solves_are_the_same()
    ensures { SolvesAreTheSame }
{}

/// Each number that a solve reads off is in lowest terms, whatever the limit.
pub fn solves_are_lowest()
    ensures { SolvesAreLowest }
{}

/// The definitions compute the master programs of the worked batches, what is read off their
/// optima, and how whole solves end: solved, for want of a unit, and at a number that does not fit.
pub fn worked_batches_are_read()
    ensures empty_batch { EmptyBatch }
    ensures one_option_matched { OneOptionMatched }
    ensures equal_prices_stay { EqualPricesStay }
    ensures lower_strike_covers { LowerStrikeCovers }
    ensures butterfly_by_two_sells { ButterflyByTwoSells }
    ensures cover_too_dear { CoverTooDear }
    ensures put_above_its_strike { PutAboveItsStrike }
    ensures spread { SpreadIsCovered }
    ensures second_round { SecondRound }
    ensures surplus_too_wide { SurplusTooWide }
    ensures whole_solves { WholeSolves }
{}
