//! What a solver, whoever it is, proposes for a batch.

ghost use Rattle.std.specs.Prelude.{◌≡◌};
ghost use Rattle.proposal_check.specs.declared.covers.BoundFailure.TheVariants as unproved;

use cell_cover::cover::Nodes;
use cert_check::{Claim, Cover, FailedCondition, Fills, Measure};
use exact_num::Wide;

/// The proof that the liability of a proposal is enough.
#[derive(Debug, Drop)]
pub enum ProposalCover {
    /// One that a verdict knows: the line of a market on one underlying, or a tree of signs.
    Checked(Cover),
    /// Nothing is owed: as much is bought as sold of each bundle.
    Match,
    /// A tree over the classes of the batch's options: its nodes in preorder.
    Cells(Nodes),
}

/// Fills with their claim, the cover of the liability, and a measure.
#[derive(Debug, Drop)]
pub struct Proposal {
    pub fills: Fills,
    pub claim: Claim,
    pub cover: ProposalCover,
    pub measure: Measure,
}

/// Why a proposal proves no bound: the condition that fails first, never that of the bound, or the
/// step that does not fit.
#[derive(Clone, Copy, Debug, PartialEq, Eq)]
pub enum BoundFailure {
    No(FailedCondition),
    Wide(Wide),
}

impl From<Wide> for BoundFailure {
    ghost from_gives = { λ wide failed. failed ≡ unproved.Wide wide };

    fn from(wide: Wide) -> Self {
        BoundFailure::Wide(wide)
    }
}
