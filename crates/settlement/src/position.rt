//! Positions, and what is paid out for them.

use form::{Bundle, Side};
use frac::Frac128;
use lists::List;

/// What an order holds of its bundle after a batch in which it was filled, until its market is
/// settled.
#[derive(Clone, Copy, Debug, PartialEq, Eq)]
pub struct Position {
    pub market: u32,
    pub batch: u32,
    pub order: u64,
    pub account: u32,
    pub side: Side,
    pub bundle: Bundle,
    pub fill: Frac128,
}

/// What is paid for a position when its market is settled, in ticks: by the house to the account,
/// which is a `Buy`, or by the account to the house, a `Sell`. An amount of 0 is a `Buy`.
#[derive(Clone, Copy, Debug, PartialEq, Eq)]
pub struct PaidOut {
    pub batch: u32,
    pub order: u64,
    pub account: u32,
    pub side: Side,
    pub amount: u64,
}

/// What a settlement pays out, which contracts see as their list.
pub type Payouts = List<PaidOut>;
