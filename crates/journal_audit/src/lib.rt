//! The report on a journal of `serve`: whether each of its lines is a sound one, and how many there
//! are.
#![tactic(auto)]

mod accepted;
mod auditing;
mod findings;
pub mod gate_lines;
mod gate_reading;
pub mod laws;

pub use auditing::audit_journal;
pub use gate_lines::{GateLine, Why};
pub use journal_check::{Reason, Report, audit_text};
