//! Proposals that are judged a bound, and what is kept of them for a market: the best fills and the
//! best measure for one list of orders. Whatever a solver found, what is handed out is judged: what
//! it found where the judgement is a bound, and else a proposal of nothing, which always is one.
#![tactic(auto)]

pub mod best;
pub mod judged;
pub mod judged_laws;
pub mod kept;
pub mod laws;
pub mod unfilled;

pub use best::{Best, BoundedMeasure, CoveredFills, OrderNumbers};
pub use judged::judged_or_nothing;
pub use kept::Kept;
pub use unfilled::nothing;
