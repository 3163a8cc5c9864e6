//! The exchange program over any words, source and sink: command lines in, reply lines out.
#![tactic(auto)]

mod check;
mod demo;
pub mod laws;
mod live;
mod mode_lines;
mod program;
mod serving;
mod status;

pub use check::MAX_JOURNAL;
pub use program::exchange;
pub use status::Status;
