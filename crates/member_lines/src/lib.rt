//! Lines that sessions say, and the rule of who may say what before them: over any way of answering
//! what lines ask that has an exchange.
#![tactic(auto)]

mod aims;
mod asking;
pub mod laws;
mod lines;
mod refused;
mod requests;

pub use asking::AsksRequests;
pub use lines::MemberLines;
pub use requests::AnswersRequests;
