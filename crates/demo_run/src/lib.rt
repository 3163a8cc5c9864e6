//! The demo: a large command text is made from a seed and a number of orders and run, and its
//! replies are counted.
#![tactic(auto)]

mod draws;
pub mod laws;
mod order;
mod run;
mod summary;
mod tally;
mod text;

pub use summary::demo;
pub use tally::Tally;
pub use text::{MAX_BYTES, demo_text};
