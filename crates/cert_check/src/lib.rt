//! The verdict on a cleared batch: whether its certificate holds, its cover by lines or trees that
//! are checked below, its measure by the prices that it gives and the bound on every surplus.
//! Nothing here solves anything.
#![tactic(auto)]

mod balance;
pub mod bounds;
pub mod checks;
mod cover;
pub mod judging;
pub mod laws;
pub mod mass;
pub mod measure_laws;
pub mod measures;
pub mod outcome;
pub mod prices;
mod shape;

pub use balance::fallback_holds;
pub use bounds::bound;
pub use checks::{bound_holds, cover_holds, measure_holds, surplus_holds};
pub use judging::verdict;
pub use mass::is_measure;
pub use measures::{Measure, Points, Weighted};
pub use outcome::{Claim, Cover, FailedCondition, Fills, Mark, Outcome, Verdict};
pub use prices::price_of;
pub use shape::{are_fills, cover_fits, has_fills, states_have};
