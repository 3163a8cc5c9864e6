//! The report on a journal: whether each of its lines is a sound reply, and how many there are.
#![tactic(auto)]

mod checking;
pub mod findings;
mod journal_lines;
pub mod judges;
pub mod laws;
pub mod reports;

pub use checking::{check_journal, report_by};
pub use findings::Finding;
pub use judges::LineJudge;
pub use reports::{Reason, Report, audit_text, text};
