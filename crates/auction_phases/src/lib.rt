//! The phases of an auction: a market is closed, and until it is cleared, settled or opened again
//! no order comes or goes in it.
//!
//! A call takes memory only where it may answer want of it.
#![tactic(auto)]

pub mod laws;
mod phases;
mod refusal;

pub use phases::{Phases, ended_in};
pub use refusal::{PhaseFailure, PhaseRefusal};
