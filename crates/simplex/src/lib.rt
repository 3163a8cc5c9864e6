//! The simplex method with Bland's rule, over exact numbers (Chvatal, Linear Programming, chapters
//! 2, 3 and 5). Each run is the run that the definition names, step by step: its optimum with the
//! dual, its direction, or the first stop. It is made over rows of whole numbers, where they keep
//! within a bound, and over fractions else.
#![tactic(auto)]

mod attempt;
pub mod budget;
pub mod fill;
mod run;
pub mod space;
mod stage;
pub mod stop;
mod whole_run;

pub use budget::Budget;
pub use space::Space;
pub use stop::{RunStop, SolveStop};
