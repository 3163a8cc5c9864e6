//! The cover of a market on one underlying: its net payoff at the prices where a payoff bends.
#![tactic(auto)]

pub mod breakpoint;
mod filled;
pub mod laws;
pub mod net;
pub mod price;
pub mod states;
pub mod verdict;

pub use states::breakpoints;
pub use verdict::{LineVerdict, holds_on_line};
