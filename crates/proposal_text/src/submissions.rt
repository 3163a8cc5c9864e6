//! What a line proposes for a market.

use proposal_check::Proposal;
use proposals::OrderNumbers;

/// A proposal, and the numbers of the live orders that it is for, in their order.
#[derive(Debug, Drop)]
pub struct Submission {
    pub orders: OrderNumbers,
    pub proposal: Proposal,
}
