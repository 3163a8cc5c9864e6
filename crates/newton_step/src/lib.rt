//! One step of Newton's method along a line, in whole steps and exact whatever the sizes of its
//! numbers: where the line through a value, by its slope, is at a level.
#![tactic(auto)]

mod differences;
mod steps;

pub use steps::whole_steps;
