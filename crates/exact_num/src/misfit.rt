//! An operation that does not fit.

/// The operation that did not fit. A subtraction is the addition of the negated number.
#[derive(Clone, Copy, PartialEq, Eq, Debug)]
pub enum Operator {
    /// A sum or a difference.
    Add,
    /// A product.
    Mul,
    /// A quotient.
    Div,
    /// A whole number taken in.
    Whole,
}

/// An operation with a number above the limit, and its operands as numerators and denominators.
/// The right operand of `Whole` is 0 over 1.
#[derive(Clone, Copy, PartialEq, Eq, Debug)]
pub struct Wide {
    pub operator: Operator,
    pub left: (i128, i128),
    pub right: (i128, i128),
}
