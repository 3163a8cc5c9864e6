//! Linear programs.

/// A linear program: maximise `c · x` under `A x <= b` and `x >= 0`.
#[derive(Drop)]
pub struct Program<N> {
    /// The number of variables.
    pub n: usize,
    /// The number of rows.
    pub m: usize,
    /// The coefficients A row by row, `m * n` numbers.
    pub a: Vec<N>,
    /// The right sides, `m` numbers.
    pub b: Vec<N>,
    /// The costs, `n` numbers.
    pub c: Vec<N>,
}
