//! In which numbers a batch is cleared.

/// The numbers in which the run of a batch was done before the sums of the verdict.
#[derive(Clone, Copy, PartialEq, Eq, Debug)]
pub enum Pass {
    /// Those that were tried first: each number of the run fits them.
    Narrow,
    /// Those of 128 bits, since a number of the run does not fit those that were tried first.
    Broad,
}
