//! The search for a state at which fills owe more than a liability, over the signs of what long
//! legs pay (Wang, Pennock, Devanur, Rothschild, Tao and Wellman, EC 2021, on the pricing of
//! combinatorial options).
#![tactic(auto)]

mod branches;
mod costs;
mod excess;
pub mod filling;
pub mod found;
mod giving;
mod legs;
mod node;
mod reading;
pub mod room;
mod rows;
pub mod searching;
pub mod sizes;
mod splitting;

pub use found::Found;
pub use room::SearchRoom;
pub use searching::{search, search_in};
pub use sizes::SearchSizes;
