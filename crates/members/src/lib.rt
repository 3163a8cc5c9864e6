//! Members: which session owns an account, and what a session may say, by one rule over the word of
//! its line and the account that it names.
//!
//! A call takes memory only where it may answer want of it.
#![tactic(auto)]

mod counts;
pub mod laws;
mod live;
mod members;
mod owners;
pub mod quota;
mod refusal;
pub mod rule;

pub use counts::Counted;
pub use members::Members;
pub use refusal::MemberRefusal;
