//! Covers by cells: trees over classes of options, the check that such a cover closes over the
//! fills of a batch, and why it covers them.
#![tactic(auto)]

mod closing;
pub mod cover;
mod factors;
mod formed;
mod kinked;
mod kinks;
pub mod laws;
mod leaf;
mod lookups;
mod mixing;
mod rows;
mod signs;
mod vectors;
mod walk;

pub use closing::{closes, is_formed};
