//! The objective row, of 128 bits, and room for a pivot.
ghost use Rattle.std.specs.Prelude.{◌≡◌, ◌-◌, ◌<◌, ◌≤◌, length, map, true};
ghost use Rattle.run_equivalence.specs.IntegerRows.{row_size};
ghost use Rattle.integer_tableau.specs.Eliminating.{IsEliminatedBy, IsKept, IsPivotRow};
ghost use Rattle.integer_tableau.specs.Rows.{row_in};

use crate::front::eliminate_wide_front;
use crate::mix::PivotRow;
use crate::word::Widen;

/// The objective row: its denominator and then its numbers, the value last, and a size that none of
/// them is above.
#[derive(Drop)]
pub struct Objective {
    pub numbers: Vec<i128>,
    pub size: u128,
}

/// Room for a pivot: for the places where the pivot row is not 0, and for the numbers of a row in
/// 128 bits before it is cut.
#[derive(Drop)]
pub struct Scratch {
    pub places: Vec<usize>,
    pub room: Vec<i128>,
}

impl Objective {
    /// Eliminates the pivot's column, and says whether each step is within the limit.
    pub fn eliminate<P: Widen<i128>>(&mut self, pivot: &[P], known: PivotRow, width: usize) -> bool
        requires widths { (width < length self.old.numbers.items) × (width < length pivot.now) }
        requires pivot { IsPivotRow known width (row_in width (map P.value pivot.now)).numbers }
        requires line { IsKept known.step.limit width self.old.size
            (row_in width self.old.numbers.items) }
        ensures eliminated { result ≡ true → IsEliminatedBy known.entry
            (row_in width (map P.value pivot.now)).numbers
            (row_in width self.old.numbers.items) (row_in width self.new.numbers.items) }
        ensures size { result ≡ true
            → row_size (row_in width self.new.numbers.items) ≤ self.new.size }
        ensures places { length self.new.numbers.items ≡ length self.old.numbers.items }
    {
        let row = self.numbers.as_mut_slice();
        eliminate_wide_front(row, &mut self.size, pivot, known, width)
    }
}
