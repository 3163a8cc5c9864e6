//! The joint solve of a batch as one call, in numbers of any width, with memory of its own. A clear
//! makes the same run in room that is kept (`clearing`).
#![tactic(auto)]

mod judging;
mod solving;

pub use solving::solve_joint;
