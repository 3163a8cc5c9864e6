//! Trees of signs with multipliers: the check that a tree closes over the fills of a batch.
#![tactic(auto)]

mod closing;
mod filled;
pub mod laws;
mod leaf;
mod legs;
pub mod trees;

pub use closing::{MAX_SIGNS, closes};
pub use legs::{BatchLeg, Exposure, LegsLeft, first_leg, leg_at, leg_count};
pub use trees::{Multiplier, Multipliers, Node, Nodes, SignTree, TreeVerdict};
