//! What the judgement of a proposal shows: the contracts of functions that do nothing.

ghost use Rattle.proposal_check.specs.ProposalLaws.{CheckedAsVerdicts, HalvesJoin, MatchesJoin, OptimalIsBounded, ProposalsAreDecided};
ghost use Rattle.proposal_check.specs.Worked.{CellsAsProposed, MatchesAsWorked, ProposalsAsWorked};

/// A proposal that is judged a bound covers its surplus, and the greatest is from that to the
/// bound; else what is told of it is the first condition that it does not meet.
pub fn proposals_are_decided()
    ensures { ProposalsAreDecided }
{}

/// With a cover that a verdict knows, the conditions are those of the outcome marked optimal.
pub fn checked_as_verdicts()
    ensures { CheckedAsVerdicts }
{}

/// The verdict on the mark optimal is that on a bound which is the surplus.
pub fn optimal_is_bounded()
    ensures { OptimalIsBounded }
{}

/// The fills of a proposal with the measure of another prove the bound of the other.
pub fn halves_join()
    ensures { HalvesJoin }
{}

/// An outcome without a certificate that the verdict accepts proves, as a match, the bound of the
/// measure of another.
pub fn matches_join()
    ensures { MatchesJoin }
{}

/// Proposals for the butterfly, sound and changed, prove the bounds that are worked by hand.
pub fn proposals_as_worked()
    ensures { ProposalsAsWorked }
{}

/// One option that is bought and sold is matched, and with other fills or a liability it is not.
pub fn matches_as_worked()
    ensures { MatchesAsWorked }
{}

/// A basket that two calls cover is covered by cells, and by cells that are changed it is not.
pub fn cells_as_proposed()
    ensures { CellsAsProposed }
{}
