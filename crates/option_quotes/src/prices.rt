//! What is answered where implied prices are asked for.

use cert_check::Outcome;

/// The price at which a further order of one side raises the greatest surplus of a batch, with the
/// outcomes that show it.
#[derive(Debug, Drop)]
pub enum SidePrice {
    /// The order raises the surplus from this price on: `raising` is the outcome at it, and
    /// `beside` at the next worse price, where there is one.
    At {
        price: u64,
        raising: Outcome,
        beside: Option<Outcome>,
    },
    /// No price raises it: `extreme` is the outcome at the best price for a match.
    Never {
        extreme: Outcome,
    },
    /// The first outcome that is not marked optimal, and the price that was probed.
    Unmarked {
        price: u64,
        outcome: Outcome,
    },
    /// One probe more was wanted than a side may have.
    Spent,
}

/// The prices of both sides, by one outcome of the batch itself.
#[derive(Debug, Drop)]
pub enum MarketPrices {
    /// The outcome of the batch itself, which is marked optimal; the least price at which a further
    /// buy raises its surplus, and the greatest at which a further sell does.
    Marked {
        base: Outcome,
        ask: SidePrice,
        bid: SidePrice,
    },
    /// It is not marked optimal.
    Unmarked {
        base: Outcome,
    },
}
