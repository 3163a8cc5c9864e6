//! The numbers of runs: what a run clears are numbers of 128 bits, and so are the operands of the
//! step at which it stops.
#![tactic(auto)]

pub mod laws;
