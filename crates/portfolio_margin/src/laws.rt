//! Laws over the definitions: each is the contract of a function that does nothing.
ghost use Rattle.portfolio_margin.specs.Laws.{EachRunEnds, EndlessAreUnbounded, MarginsAreLeast, NeedsCover};
ghost use Rattle.portfolio_margin.specs.Need.{LiabilitiesAreRoundedUp};
ghost use Rattle.portfolio_margin.specs.Worked.{MarginsByHand, NeedsByHand};

/// A run that ends with a liability ends with the least one that covers the positions, and a tree
/// that closes for it.
pub fn margins_are_least()
    ensures { MarginsAreLeast }
{}

/// A run that ends with a ray has shown that no liability covers the positions.
pub fn endless_are_unbounded()
    ensures { EndlessAreUnbounded }
{}

/// Each run ends with one of these, or stops at a number that does not fit or for want of a unit.
pub fn each_run_ends()
    ensures { EachRunEnds }
{}

/// An amount covers what all positions lose, whatever the prices at which each market is settled.
pub fn needs_cover()
    ensures { NeedsCover }
{}

/// What a liability is rounded up to is the least whole number that is not below it.
pub fn liabilities_are_rounded_up()
    ensures { LiabilitiesAreRoundedUp }
{}

/// The definitions compute the margins of options that are sold, of a spread and of a bundle that
/// is owed, and what margins need: a sum, the largest one, one that does not fit, and a margin
/// without a bound.
pub fn margins_by_hand()
    ensures margins { MarginsByHand }
    ensures need { NeedsByHand }
{}
