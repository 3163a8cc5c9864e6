//! What is proposed without a search: the match of each bundle by itself.
#![tactic(auto)]

pub mod matched;

pub use matched::at_least_match;
