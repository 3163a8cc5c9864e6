// Why a market is not closed, or not opened again.
ghost use Rattle.std.specs.Prelude.{◌≡◌};
ghost use Rattle.auction_phases.specs.Refusals.{number_of};
ghost use Rattle.auction_phases.specs.declared.refusal.PhaseFailure.TheVariants as PhaseFailure;

use exchange_core::Refusal;
use std::alloc::AllocError;

/// Why a market is not closed or not opened again, or why nothing comes or goes in one.
#[derive(Clone, Copy, Debug, PartialEq, Eq)]
pub enum PhaseRefusal {
    /// The exchange has no such market, or has settled it.
    Exchange(Refusal),
    /// The market is closed.
    Closed,
    /// The market is not closed.
    Open,
}

impl PhaseRefusal {
    /// The number of the refusal in a reply line.
    pub fn number(self) -> u32
        ensures { result ≡ number_of self }
    {
        match self {
            PhaseRefusal::Exchange(refusal) => refusal.number(),
            PhaseRefusal::Closed => 23,
            PhaseRefusal::Open => 24,
        }
    }
}

/// Why a market is not closed. All is then as it was.
#[derive(Clone, Copy, Debug, PartialEq, Eq)]
pub enum PhaseFailure {
    /// It is refused.
    Refused(PhaseRefusal),
    /// There is no memory for it.
    Memory,
}

impl From<PhaseRefusal> for PhaseFailure {
    ghost from_gives = { λ refusal failure. failure ≡ PhaseFailure.Refused refusal };

    fn from(refusal: PhaseRefusal) -> Self {
        PhaseFailure::Refused(refusal)
    }
}

impl From<AllocError> for PhaseFailure {
    ghost from_gives = { λ _ failure. failure ≡ PhaseFailure.Memory };

    fn from(_: AllocError) -> Self {
        PhaseFailure::Memory
    }
}
