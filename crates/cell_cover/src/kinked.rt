//! What a cover is to close over.

ghost use Rattle.std.specs.Prelude.{◌≤◌};

use crate::vectors::{Class, Knowledge, Row};
use frac::Frac128;

/// What a cover is to close over: the classes with their kinks, the liability, and how many entries
/// they have.
#[derive(Clone, Copy)]
pub struct Kinked<'a> {
    pub classes: &'a [Class],
    pub liability: &'a Frac128,
    pub entries: usize,
    ghost within: { (1 ≤ entries) × (entries ≤ 9) },
}

/// A cell: the sum of slope and kinks by entry, and what is known of each class.
#[derive(Clone, Copy)]
pub struct Cell<'a> {
    pub sums: &'a Row,
    pub known: &'a [Knowledge],
}
