//! How a pivot ends.

/// How a pivot ends.
#[derive(Clone, Copy)]
pub enum PivotEnd {
    /// The column entered, and a row left.
    Moved,
    /// No row limits the column.
    Unlimited,
    /// A step may leave the limit.
    GivenUp,
}
