//! A solver of batches by floats: what it answers is judged a bound for the batch, whatever its
//! floats found. How near surplus and bound come is measured, and no clause says it. What was found
//! is brought into whole multiples of powers of two: its measure with the bound, its fills, and the
//! liability that covers them on a line, or by cells that are closed exactly.
#![tactic(auto)]

mod answer;
mod by_cells;
mod line;
mod on_line;
pub mod proposing;

pub use proposing::propose;
