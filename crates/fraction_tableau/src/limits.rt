//! The limit of a table.

/// The most rows or columns of a table, and so of variables or rows of a program.
pub const MAX_SIDE: u32 = 100_000;
