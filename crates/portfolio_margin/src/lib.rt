//! The margin of an account: the least liability that covers what its positions of a market owe,
//! and the amount that all its markets together may cost it.
#![tactic(auto)]

mod batch;
pub mod laws;
pub mod least_margin;
pub mod margins;
pub mod needs;
mod turn;

pub use least_margin::LeastMargin;
pub use margins::{margin, margin_with_units};
pub use needs::{Needed, need};
