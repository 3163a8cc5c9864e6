ghost use Rattle.std.specs.Prelude.{◌≡◌};
ghost use Rattle.order_book.specs.declared.refusal.BookRefusal.TheVariants.{Memory};

use std::alloc::AllocError;
use thiserror::Error;

/// Why a book refuses a call. It is then as it was.
#[derive(Clone, Copy, Debug, PartialEq, Eq, Error)]
pub enum BookRefusal {
    #[error("there is no such market")]
    NoMarket,
    #[error("the market is there already")]
    MarketExists,
    #[error("the market is settled")]
    Settled,
    #[error("the market is on another number of underlyings")]
    WeightCount,
    #[error("the market has as many live orders as it may have")]
    BookFull,
    #[error("no live order has this number")]
    NoOrder,
    #[error("the order is another account's")]
    NotOwner,
    #[error("there are too many markets, orders or batches")]
    TooMany,
    #[error("out of memory")]
    Memory,
}

impl From<AllocError> for BookRefusal {
    ghost from_gives = { λ _ e. e ≡ Memory };

    fn from(_: AllocError) -> Self {
        BookRefusal::Memory
    }
}
