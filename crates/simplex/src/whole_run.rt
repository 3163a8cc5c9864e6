//! The run over rows of whole numbers.
ghost use Rattle.std.specs.Prelude.{◌≡◌, ◌-◌, ◌^◌, ◌≤◌, ℕ};
ghost use Rattle.run_equivalence.specs.WholeRunning.{whole_run_from};
ghost use Rattle.integer_tableau.specs.Tables.{as_whole, IsWithin, SameShape};
ghost use Rattle.run_equivalence.specs.IntegerRows.{widest};
ghost use Rattle.simplex.specs.WholeEnds.{IsWholeEnd};

use crate::budget::Budget;
use fraction_tableau::Entering;
use integer_tableau::{PivotEnd, WholeTable};

/// How a run over rows of whole numbers ends.
#[derive(Clone, Copy)]
pub enum WholeEnd {
    /// No column enters.
    Optimal,
    /// Nothing limits this column, which enters.
    Unbounded { column: Entering },
    /// No unit is left.
    NoUnit,
    /// The run is given up: nothing is said of it.
    GivenUp,
}

// Where a row wants 128 bits in one of so many pivots at first, rows grow on, and most such runs are
// given up: so this is done at once, and nearly all that end want their first such row later.
const EARLY: u32 = 48;

/// Pivots until no column enters, nothing limits the column or no unit is left. The run is given up
/// where a step may leave the limit, and where a row wants 128 bits in the first pivots.
pub fn whole_run(table: &mut WholeTable, limit: u128, budget: &mut Budget) -> WholeEnd
    requires limit { (widest ≤ limit) × (limit ≤ 2 ^ 127 - 1) }
    requires within { IsWithin limit table.old }
    ensures run { (n m : ℕ) → IsWholeEnd limit n m result budget.new.spent table.new
        (whole_run_from limit n m (budget.old.limit - budget.old.spent) budget.old.spent
        (as_whole table.old)) }
    ensures shape { SameShape table.old table.new }
    ensures limit { budget.new.limit ≡ budget.old.limit }
{
    let early = budget.spent.saturating_add(EARLY);
    while let Some(column) = table.entering() {
        if budget.spent < early && table.has_grown() {
            return WholeEnd::GivenUp;
        }
        if !budget.spend() {
            return WholeEnd::NoUnit;
        }
        match table.pivot(column.place, limit) {
            PivotEnd::Moved => {}
            PivotEnd::Unlimited => return WholeEnd::Unbounded { column },
            PivotEnd::GivenUp => return WholeEnd::GivenUp,
        }
    }
    WholeEnd::Optimal
}
