// Why a command has no effect.
ghost use Rattle.std.specs.Prelude.{◌≡◌, ◌≢◌, Some, Err};
ghost use Rattle.exchange_core.specs.declared.failure.Failure.TheVariants as Failure;
ghost use Rattle.exchange_core.specs.Failures.{ledger_failure, book_failure, unless_memory};
ghost use Rattle.lists.specs.Refusals.{refusal_in};

use crate::Refusal;
use cash_ledger::LedgerRefusal;
use order_book::BookRefusal;
use std::alloc::AllocError;

/// Why a command, or a request, has no effect.
#[derive(Clone, Copy, Debug, PartialEq, Eq)]
pub enum Failure {
    /// It is refused.
    Refused(Refusal),
    /// There is no memory for it.
    Memory,
}

impl From<Refusal> for Failure {
    ghost from_gives = { λ refusal failure. failure ≡ Failure.Refused refusal };

    fn from(refusal: Refusal) -> Self {
        Failure::Refused(refusal)
    }
}

impl From<AllocError> for Failure {
    ghost from_gives = { λ _ failure. failure ≡ Failure.Memory };

    fn from(_: AllocError) -> Self {
        Failure::Memory
    }
}

impl From<LedgerRefusal> for Failure {
    ghost from_gives = { λ refusal failure. failure ≡ ledger_failure refusal };

    fn from(refusal: LedgerRefusal) -> Self {
        match refusal {
            LedgerRefusal::NoAccount => Failure::Refused(Refusal::NoAccount),
            LedgerRefusal::AccountExists => Failure::Refused(Refusal::AccountExists),
            LedgerRefusal::Funds => Failure::Refused(Refusal::Funds),
            LedgerRefusal::TooMany => Failure::Refused(Refusal::TooMany),
            LedgerRefusal::Memory => Failure::Memory,
        }
    }
}

impl From<BookRefusal> for Failure {
    ghost from_gives = { λ refusal failure. failure ≡ book_failure refusal };

    fn from(refusal: BookRefusal) -> Self {
        match refusal {
            BookRefusal::NoMarket => Failure::Refused(Refusal::NoMarket),
            BookRefusal::MarketExists => Failure::Refused(Refusal::MarketExists),
            BookRefusal::Settled => Failure::Refused(Refusal::Settled),
            BookRefusal::WeightCount => Failure::Refused(Refusal::WeightCount),
            BookRefusal::BookFull => Failure::Refused(Refusal::BookFull),
            BookRefusal::NoOrder => Failure::Refused(Refusal::NoOrder),
            BookRefusal::NotOwner => Failure::Refused(Refusal::NotOwner),
            BookRefusal::TooMany => Failure::Refused(Refusal::TooMany),
            BookRefusal::Memory => Failure::Memory,
        }
    }
}

// What a check that takes no memory refuses.
pub(crate) fn refusal_of(checked: Result<(), Failure>) -> Result<(), Refusal>
    requires { checked ≢ Err Failure.Memory }
    ensures { refusal_in (λ r. Some r) result ≡ refusal_in unless_memory checked }
{
    match checked {
        Ok(()) => Ok(()),
        Err(Failure::Refused(refusal)) => Err(refusal),
        Err(Failure::Memory) => unreachable!(),
    }
}
