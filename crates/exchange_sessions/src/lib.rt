//! Messages of many sessions to one exchange: each line of an input is a message or none, and has
//! one answer.
#![tactic(auto)]

mod answers;
pub mod laws;
mod run_lines;

pub use answers::answer_messages;
