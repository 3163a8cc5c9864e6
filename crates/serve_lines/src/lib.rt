//! The answers to all lines of `serve`: those of an exchange that takes proposals, over markets
//! with phases. A closed market takes no order and lets none go until it is cleared, settled or
//! opened again.
#![tactic(auto)]

mod answers;
pub mod laws;
mod phased;

pub use answers::ServeLines;
