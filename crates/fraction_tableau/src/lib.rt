//! A program as it is given, row by row, with its zeros left out; and the rows of a table of the
//! columns that are not basic, and its pivots, over exact numbers.
#![tactic(auto)]

mod candidate;
pub mod columns;
mod entries;
pub mod limits;
mod ratios;
pub mod room;
mod row;
mod rows;
pub mod sparse;
pub mod sparse_entry;
mod stops;
pub mod table;

pub use columns::{Entering, with_column};
pub use entries::is_zero;
pub use limits::MAX_SIDE;
pub use sparse::SparseProgram;
pub use sparse_entry::Entry;
pub use table::Table;
