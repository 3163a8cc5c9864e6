//! The answers to all lines of `serve`, over accounts that may be secured: those of an exchange that
//! takes proposals, over markets with phases. An order or a withdrawal of a secured account is
//! refused where its balance would not be enough for what it needs then.
#![tactic(auto)]

mod answers;
mod asking;
pub mod laws;
mod replies;

pub use answers::SecuredLines;
