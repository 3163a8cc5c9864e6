//! Linear programs as values, solved one at a time with memory of their own. The solver of a clear
//! gives its programs row by row to a space that is kept (`simplex`).
#![tactic(auto)]

pub mod counting;
pub mod program;
pub mod solved;
pub mod solver;

pub use counting::choices;
pub use program::Program;
pub use solved::Solved;
pub use solver::solve;
