//! What is proposed for the reply to a line `book`, a proposal for just the orders that it tells,
//! which is judged a bound; and such lines as they come, each answered between two reads.
#![tactic(auto)]

pub mod answers;
mod batch_limits;
mod books;
pub mod laws;
mod live;
mod written;

pub use answers::propose_for;
pub use live::propose_live;
