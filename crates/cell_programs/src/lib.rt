//! Covers by cells, as a solver in floats finds them: the fills of a book netted by classes of
//! options, programs of leaves with bounds of classes that have no sign, and a tree over classes
//! that grows at the leaf of greatest excess. What they find is near. It is rounded to whole numbers
//! and closed exactly, to be judged by others. Nothing is proved of it but that each ends within its
//! caps.
#![tactic(auto)]

pub mod bounds;
pub mod chords;
pub mod classes;
pub mod closing;
pub mod covering;
pub mod leaf;
pub mod lowest;
pub mod netting;
pub mod search;
pub mod solve;
pub mod tree;
pub mod written;

pub use classes::{Class, ClassLeg, Classes};
pub use netting::{Net, WholeNet};
pub use search::Search;
pub use solve::{CellAnswer, CellSolution, LIMITS, Limits};
pub use tree::{Caps, CellTree};
pub use written::{CellCover, Room};
