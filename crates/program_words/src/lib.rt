//! What the program's words ask for.
#![tactic(auto)]

pub mod laws;
mod places;
mod requests;
mod words;

pub use requests::{Journal, MAX_DEMO_ORDERS, MAX_SEED, Mode, Request, Served, WordsFault};
pub use words::request;
