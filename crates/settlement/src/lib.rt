//! What traders pay and get for the options that they hold, in whole ticks.
#![tactic(auto)]

pub mod laws;
pub mod payouts;
mod position;
mod positions;
pub mod premiums;
mod rounding;

pub use payouts::payout;
pub use position::{PaidOut, Payouts, Position};
pub use positions::Positions;
pub use premiums::premium;
