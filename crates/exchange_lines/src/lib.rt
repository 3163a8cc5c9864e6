//! The answer to one command line, what is written for it, and what a run of lines promises: that
//! of each batch what premiums and payoffs leave to the house is at least what the batch's reply
//! tells.
#![tactic(auto)]

mod answers;
pub mod gain_laws;
pub mod laws;

pub use answers::answer;
