//! Measures, and the test that a list of weighted states is one.

use form::State;
use frac::Frac128;
use lists::List;

/// A state and its weight.
#[derive(Clone, Copy, Debug, PartialEq, Eq)]
pub struct Weighted {
    pub state: State,
    pub weight: Frac128,
}

/// Weighted states, which contracts see as their list.
pub type Points = List<Weighted>;

/// A pricing measure: weights of states, none below 0, where the sum of `weight * t` is 1. It
/// prices a bundle at the sum of weight times payoff.
#[derive(Debug, Drop)]
pub struct Measure {
    pub points: Points,
}
