//! What the definitions of the node program and of the search imply.
ghost use Rattle.master_program.specs.NodeLaws.{NodeIsBounded, NodeIsProgram, OneCountFills, StepsGiveNode};
ghost use Rattle.master_program.specs.Rounds.{RoundsAreTheSame};
ghost use Rattle.master_program.specs.Search.{SearchesAreTheSame};
ghost use Rattle.master_program.specs.WorkedRounds.{CoveredBundle, CoveredSum, LegsOfBundles, OtherBatches, TwoRounds};

/// Where each step fits, the steps give the program in whole numbers over any common denominator of
/// fills and liability.
pub fn steps_give_node()
    ensures { StepsGiveNode }
{}

/// The program of a node is a program with right sides not below 0, so that its run starts
/// feasible.
pub fn node_is_program()
    ensures { NodeIsProgram }
{}

/// In no direction does its objective rise without an end: the states are bounded, and the other
/// variables cost.
pub fn node_is_bounded()
    ensures { NodeIsBounded }
{}

/// The fill of a leg that counts once is that of its order.
pub fn one_count_fills()
    ensures { OneCountFills }
{}

/// A search without a misfit ends alike with each greater limit: with the same tree or state, and
/// as many units spent.
pub fn searches_are_the_same()
    ensures { SearchesAreTheSame }
{}

/// So do rounds without a misfit.
pub fn rounds_are_the_same()
    ensures { RoundsAreTheSame }
{}

/// The definitions compute the rounds of the worked batches: with one round, with too few units,
/// with more rounds, with a liability below 0, and at a number that does not fit.
pub fn worked_rounds_end()
    ensures covered_sum { CoveredSum }
    ensures two_rounds { TwoRounds }
    ensures covered_bundle { CoveredBundle }
    ensures other_batches { OtherBatches }
{}

/// They compute the programs of a node with legs of bundles, under each sign.
pub fn bundle_nodes_are_built()
    ensures { LegsOfBundles }
{}
