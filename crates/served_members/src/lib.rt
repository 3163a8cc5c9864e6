//! What sessions say to an exchange that answers all lines of `serve`: by the rule of who may say
//! what, each account that a session opens which is not the operator's being secured from its
//! opening.
#![tactic(auto)]

pub mod laws;
mod served;

pub use member_lines::MemberLines;
pub use secured_lines::SecuredLines;
pub use served::ServedLines;
