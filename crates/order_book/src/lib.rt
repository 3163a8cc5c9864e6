//! The order book: markets, their live orders in rising number, and how many orders and batches
//! there were.
//!
//! A call takes memory only where it may answer `Memory`.
#![tactic(auto)]

mod book;
mod live_orders;
mod market;
mod markets;
mod new_order;
mod refusal;

pub use book::Book;
pub use market::MarketInfo;
pub use new_order::NewOrder;
pub use refusal::BookRefusal;
