//! Messages of many sessions to one way of answering their bodies: each line of an input is a
//! message or none, and has one answer.
#![tactic(auto)]

mod bodies;
pub mod laws;
pub mod messages;
mod questions;
mod sessions;
pub mod texts;

pub use bodies::{AnswersMessages, AnySession};
pub use questions::AsksBodies;
pub use sessions::{SessionLines, kept_reply, without_feed};
