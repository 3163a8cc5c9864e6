//! The clearing of a batch: the greatest surplus with its proof, or where the run stops, the match
//! of each bundle by itself.
#![tactic(auto)]

mod clearing;
mod fallback;
pub mod laws;
mod room;

pub use clearing::clear;
pub use room::ClearRoom;
