//! The run over a table.
ghost use Rattle.std.specs.Prelude.{◌≡◌, ◌-◌, ◌<◌, Ok, Err, ℕ, length, unsigned_abs};
ghost use Rattle.simplex_run.specs.Run.{run_from};
ghost use Rattle.fraction_tableau.specs.Tables.{as_table, SameShape};
ghost use Rattle.simplex.specs.Ends.{ending_of};

use crate::budget::Budget;
use crate::stop::RunStop;
use exact_num::Exact;
use fraction_tableau::{Entering, Table};

/// How a run that did not stop ends.
#[derive(Clone, Copy)]
pub enum End {
    /// No column enters.
    Optimal,
    /// Nothing limits this column, which enters.
    Unbounded { column: Entering },
}

/// Pivots until no column enters, nothing limits the column, a step does not fit or no unit is left.
pub fn run<N: Exact>(table: &mut Table<N>, budget: &mut Budget) -> Result<End, RunStop>
    ensures run { (n m : ℕ)
        → ending_of n m result budget.new.spent (as_table N.fraction table.new)
        ≡ run_from (unsigned_abs N.LIMIT) n m
        (budget.old.limit - budget.old.spent) budget.old.spent (as_table N.fraction table.old) }
    ensures unit { (unit : _) (wide : _) → result ≡ Err (RunStop.Wide unit wide)
        → budget.new.spent ≡ unit }
    ensures place { (c : _) → result ≡ Ok (End.Unbounded c)
        → c.place < length table.new.labels.items }
    ensures shape { SameShape table.old table.new }
    ensures limit { budget.new.limit ≡ budget.old.limit }
{
    while let Some(column) = table.entering() {
        if !budget.spend() {
            return Err(RunStop::Budget);
        }
        match table.pivot(column.place) {
            Ok(true) => {}
            Ok(false) => return Ok(End::Unbounded { column }),
            Err(wide) => {
                return Err(RunStop::Wide {
                    unit: budget.spent,
                    wide,
                });
            }
        }
    }
    Ok(End::Optimal)
}
