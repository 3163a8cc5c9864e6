//! The best that proposals have proved for one list of orders.

ghost use Rattle.std.specs.Prelude.{◌≡◌};
ghost use Rattle.proposals.specs.Best.{after_best, best_of, better_fills, better_measure, joined};

use cert_check::{Claim, Fills, Measure};
use frac::Frac128;
use lists::List;
use proposal_check::{Proposal, ProposalCover};

/// The numbers of a market's live orders, by rising number.
pub type OrderNumbers = List<u64>;

/// Fills with what they claim and the cover of their liability.
#[derive(Debug, Drop)]
pub struct CoveredFills {
    pub fills: Fills,
    pub claim: Claim,
    pub cover: ProposalCover,
}

/// A measure and its bound.
#[derive(Debug, Drop)]
pub struct BoundedMeasure {
    pub measure: Measure,
    pub bound: Frac128,
}

/// The fills with the greatest surplus and the measure with the least bound that were proposed for
/// these orders. They may come from two proposals.
#[derive(Debug, Drop)]
pub struct Best {
    pub orders: OrderNumbers,
    pub covered: CoveredFills,
    pub bounded: BoundedMeasure,
}

impl Best {
    // What one proposal gives.
    pub(crate) fn of(orders: OrderNumbers, proposal: Proposal, bound: Frac128) -> Self
        ensures { result ≡ best_of orders proposal bound }
    {
        let Proposal {
            fills,
            claim,
            cover,
            measure,
        } = proposal;
        Best {
            orders,
            covered: CoveredFills {
                fills,
                claim,
                cover,
            },
            bounded: BoundedMeasure { measure, bound },
        }
    }

    // What is kept after another: the better halves for the same orders, and for others the new
    // ones.
    pub(crate) fn after(self, new: Best) -> Self
        ensures { result ≡ after_best self new }
    {
        if self.orders.as_slice() == new.orders.as_slice() {
            self.joined(new)
        } else {
            new
        }
    }

    // The better halves.
    fn joined(self, new: Best) -> Self
        ensures { result ≡ joined self new }
    {
        let Best {
            orders,
            covered,
            bounded,
        } = self;
        Best {
            orders,
            covered: better_fills(covered, new.covered),
            bounded: better_measure(bounded, new.bounded),
        }
    }
}

// The fills that were kept, where the surplus of the new ones is not above theirs.
fn better_fills(kept: CoveredFills, new: CoveredFills) -> CoveredFills
    ensures { result ≡ better_fills kept new }
{
    if new.claim.surplus <= kept.claim.surplus {
        kept
    } else {
        new
    }
}

// The measure that was kept, where the bound of the new one is not below its.
fn better_measure(kept: BoundedMeasure, new: BoundedMeasure) -> BoundedMeasure
    ensures { result ≡ better_measure kept new }
{
    if kept.bound <= new.bound { kept } else { new }
}
