//! Laws over messages whose answers may look at the session that says them.
#![tactic(auto)]

pub mod laws;
