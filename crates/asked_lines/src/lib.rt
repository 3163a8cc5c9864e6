//! Lines that ask, beside a way of answering lines: they have no number of their own and change
//! nothing, so whoever has read the same lines may answer them.
#![tactic(auto)]

mod asked;
pub mod laws;
mod questions;
mod requests;

pub use asked::AskedLines;
pub use questions::AnswersQuestions;
pub use requests::may_be_asked;
