//! The judgement of proposals: fills with a cover of one of four kinds and a measure, whoever found
//! them. The line and the tree of signs are judged as a verdict judges them, the match of each
//! bundle as an outcome without a certificate, and cells by the walk over them.
#![tactic(auto)]

mod bounded;
mod covering;
pub mod covers;
pub mod judging;
pub mod laws;
mod shape;

pub use covers::{BoundFailure, Proposal, ProposalCover};
pub use judging::{bounded_verdict, judge_proposal};
pub use shape::MAX_WALKED;
