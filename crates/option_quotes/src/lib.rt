//! Quotes of an option: the price at which one further order would raise the greatest surplus of a
//! batch. A quote is no price at which one trades: it says what a clear would find, and changes
//! nothing.
#![tactic(auto)]

mod along;
mod ends;
mod implied;
pub mod laws;
pub mod prices;
mod probes;
pub mod quotes;
mod quoting;
pub mod trying;

pub use implied::implied_prices;
pub use prices::{MarketPrices, SidePrice};
pub use quotes::Quoted;
pub use quoting::quote;
pub use trying::{Tried, try_order};
