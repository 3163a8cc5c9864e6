//! Clearing by a run in narrow numbers first, and where one does not fit, in 128 bits: the outcome
//! is that of a clear, and it is told in which numbers it was found.
#![tactic(auto)]

mod narrow;
mod passes;
mod room;

pub use narrow::{clear_first, clear_in};
pub use passes::Pass;
pub use room::{FirstRoom, Room};
