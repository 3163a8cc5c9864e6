//! The exchange: one step for each command, over the accounts of its ledger, the markets of its
//! book and the positions.
//!
//! A call takes memory only where it may answer want of it.
#![tactic(auto)]

mod checks;
mod clear;
mod exchange;
mod failure;
mod held;
pub mod laws;
mod line_replies;
mod new_positions;
mod place;
mod refusal;
mod reply;
mod reserve;
mod settle;
mod trade;

pub use command_text::{Command, Kind};
pub use exchange::Exchange;
pub use failure::Failure;
pub use line_replies::reply_to;
pub use order_book::NewOrder;
pub use refusal::Refusal;
pub use reply_print::Reply;
pub use trade::order_of;
