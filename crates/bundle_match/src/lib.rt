//! The match of each bundle by itself: a double auction of the buys and the sells of one bundle.
#![tactic(auto)]

mod auction;
pub mod laws;
mod matches;
mod queues;

pub use matches::match_each;
