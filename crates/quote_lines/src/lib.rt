//! Lines that may ask for a quote or for prices, and their answers: those of a run, and what is
//! told.
#![tactic(auto)]

mod answers;
pub mod laws;
mod quoting;
mod replies;
mod trying;

pub use answers::answer;
pub use quoting::asked_reply;
pub use replies::reply_to;
pub use trying::tried_reply;
