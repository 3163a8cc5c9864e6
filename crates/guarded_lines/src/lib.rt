//! Lines that may ask for a margin, and their answers: those of a run, what is told of margins, and
//! withdrawals that an account's margins do not leave room for.
#![tactic(auto)]

mod answers;
pub mod laws;
mod margins;
mod needs;
mod replies;
mod withdrawals;

pub use answers::answer;
pub use margins::margin_reply;
pub use replies::reply_to;
