//! The end of a run that did not stop.

/// The end of a run that did not stop.
#[derive(Drop)]
pub enum Solved<N> {
    /// The greatest value, at the feasible `x`. The dual `y` has a number for each row, `reduced`
    /// the reduced cost of each variable, and both show that no feasible point has more.
    Optimal {
        x: Vec<N>,
        y: Vec<N>,
        reduced: Vec<N>,
        value: N,
    },
    /// The objective rises without an end along the direction from each feasible point.
    Unbounded {
        direction: Vec<N>,
    },
}
