//! What is answered where a quote is asked for.

use cert_check::Outcome;

/// The price at which a further buy or sell of one bundle raises the greatest surplus of a batch,
/// with the outcomes that show it: `base` is that of the batch itself.
#[derive(Debug, Drop)]
pub enum Quoted {
    /// An order raises the surplus from this price on: `raising` is the outcome at it, and `beside`
    /// at the next worse price, where there is one.
    At {
        price: u64,
        raising: Outcome,
        beside: Option<Outcome>,
        base: Outcome,
    },
    /// No price raises it: `extreme` is the outcome at the best price for a match.
    Never {
        extreme: Outcome,
        base: Outcome,
    },
    /// The first outcome that is not marked optimal, and the price that was probed, or `None` for
    /// the batch itself.
    Unmarked {
        probe: Option<u64>,
        outcome: Outcome,
    },
}
