//! What a command line is answered.

use cert_check::Outcome;
use form::Batch;
use settlement::Payouts;

/// What a command line is answered. Balances and amounts are in ticks.
#[derive(Debug, Drop)]
pub enum Reply {
    /// The account is open, with balance 0.
    Opened {
        account: u32,
    },
    /// The amount was added; the new balance.
    Deposited {
        account: u32,
        balance: i128,
    },
    /// The amount was taken; the new balance.
    Withdrawn {
        account: u32,
        balance: i128,
    },
    /// The market is listed, on this number of underlyings.
    Listed {
        market: u32,
        underlyings: u8,
    },
    /// The order is live, under its number.
    Placed {
        order: u64,
    },
    /// The order was taken out.
    Cancelled {
        order: u64,
    },
    /// The batch of this number was cleared: what was filled of its orders, and what is left to the
    /// house at every settlement, with the proof that it is the greatest, or with what the run
    /// stopped at.
    Cleared {
        number: u32,
        market: u32,
        batch: Batch,
        outcome: Outcome,
    },
    /// The market is settled: how many live orders lapsed, and what its positions were paid, in
    /// their order.
    Settled {
        market: u32,
        lapsed: u32,
        payouts: Payouts,
    },
    /// The balance of an account, and what of it is reserved for its live buys.
    Balance {
        account: u32,
        balance: i128,
        reserved: i128,
    },
    /// The line was refused, by the number of the refusal; `field` is 0 but where a field is out of
    /// its range.
    Refused {
        number: u32,
        field: u8,
    },
}
