//! What is left of a row of 64 bits.

/// What is left of a row of 64 bits that the pivot's column is eliminated from.
#[derive(Clone, Copy)]
pub enum Eliminated {
    /// 64 bits hold the row, which stands where it was, over this denominator.
    Short { denominator: u64 },
    /// They do not: the room has its numbers, over this denominator.
    Wide { denominator: u128 },
    /// A step may leave the limit. The row stands where it was.
    Misfit,
}
