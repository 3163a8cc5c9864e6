//! The run of a program: over rows of whole numbers, or over fractions where those are given up.
ghost use Rattle.std.specs.Prelude.{◌≡◌, ◌+◌, ◌-◌, ◌<◌, ◌≤◌, None, length, unsigned_abs};
ghost use Rattle.simplex_run.specs.Run.{run as run_of};
ghost use Rattle.fraction_tableau.specs.Tables.{program_in as program_in_table, room_of, IsGiven, SameRoom, SameShape};
ghost use Rattle.fraction_tableau.specs.SparseRows.{program_in};
ghost use Rattle.simplex_run.specs.Optimum.{IsProgram};
ghost use Rattle.simplex.specs.Attempts.{IsEndOf, IsTried};

use crate::budget::Budget;
use crate::run::{End, run};
use crate::stage::Stage;
use crate::stop::RunStop;
use crate::whole_run::{WholeEnd, whole_run};
use exact_num::Exact;
use fraction_tableau::{SparseProgram, Table};
use integer_tableau::WholeTable;

/// The run over rows of whole numbers, or None where it is given up: then the budget is what it
/// was.
fn run_whole<N: Exact>(
    program: &SparseProgram<N>,
    line: &mut [N],
    whole: &mut WholeTable,
    budget: &mut Budget,
) -> Option<Result<Stage, RunStop>>
    requires { length line.old ≡ length program.now.costs.items + 1 }
    ensures tried { (t : _) → IsProgram (program_in N.fraction program.now)
        → IsTried N.fraction (unsigned_abs N.LIMIT) (program_in N.fraction program.now)
        (run_of (unsigned_abs N.LIMIT) (program_in N.fraction program.now)
        (budget.old.limit - budget.old.spent) budget.old.spent)
        result budget.new.spent t whole.new }
    ensures given_up { result ≡ None → budget.new ≡ budget.old }
    ensures limit { budget.new.limit ≡ budget.old.limit }
{
    let limit = N::LIMIT.unsigned_abs();
    if limit < i64::MAX as u128 || !whole.take_in(program, line) {
        return None;
    }
    let mut tried = *budget;
    match whole_run(whole, limit, &mut tried) {
        WholeEnd::Optimal => {
            *budget = tried;
            Some(Ok(Stage::WholeOptimal))
        }
        WholeEnd::Unbounded { column } => {
            *budget = tried;
            Some(Ok(Stage::WholeUnbounded { column }))
        }
        WholeEnd::NoUnit => {
            *budget = tried;
            Some(Err(RunStop::Budget))
        }
        WholeEnd::GivenUp => None,
    }
}

/// Gives the program to the table, row by row.
fn give<N: Exact>(program: &SparseProgram<N>, line: &mut [N], table: &mut Table<N>)
    requires line { length line.old ≡ length program.now.costs.items + 1 }
    requires costs { length program.now.costs.items < table.old.rows.width }
    requires rows { length program.now.ends.items ≤ room_of table.old }
    ensures program { program_in_table N.fraction table.new ≡ program_in N.fraction program.now }
    ensures given { IsGiven N.fraction table.new }
    ensures room { SameRoom table.old table.new }
{
    table.begin(program.costs());
    let columns = program.variables();
    for i in 0..program.rows() {
        program.write_row(i, line);
        let right_side = line[columns];
        table.row(&line[..columns], right_side);
    }
}

/// The run over fractions, of the program that was given to the table.
fn run_fractions<N: Exact>(table: &mut Table<N>, budget: &mut Budget) -> Result<Stage, RunStop>
    requires { IsGiven N.fraction table.old }
    ensures ended { (w : _) → IsProgram (program_in_table N.fraction table.old)
        → IsEndOf N.fraction (unsigned_abs N.LIMIT) (program_in_table N.fraction table.old)
        (run_of (unsigned_abs N.LIMIT) (program_in_table N.fraction table.old)
        (budget.old.limit - budget.old.spent) budget.old.spent)
        result budget.new.spent table.new w }
    ensures shape { SameShape table.old table.new }
    ensures limit { budget.new.limit ≡ budget.old.limit }
{
    table.first();
    match run(table, budget) {
        Ok(End::Optimal) => Ok(Stage::Optimal),
        Ok(End::Unbounded { column }) => Ok(Stage::Unbounded { column }),
        Err(stop) => Err(stop),
    }
}

/// The run of the program that was given; `line` is room for one row.
pub fn run_given<N: Exact>(
    program: &SparseProgram<N>,
    line: &mut [N],
    table: &mut Table<N>,
    whole: &mut WholeTable,
    budget: &mut Budget,
) -> Result<Stage, RunStop>
    requires given { IsProgram (program_in N.fraction program.now) }
    requires line { length program.now.costs.items < length line.old }
    requires costs { length program.now.costs.items < table.old.rows.width }
    requires rows { length program.now.ends.items ≤ room_of table.old }
    ensures run { IsEndOf N.fraction (unsigned_abs N.LIMIT) (program_in N.fraction program.now)
        (run_of (unsigned_abs N.LIMIT) (program_in N.fraction program.now)
        (budget.old.limit - budget.old.spent) budget.old.spent)
        result budget.new.spent table.new whole.new }
    ensures room { SameRoom table.old table.new }
    ensures limit { budget.new.limit ≡ budget.old.limit }
{
    let width = program.variables() + 1;
    match run_whole(program, &mut line[..width], whole, budget) {
        Some(ending) => ending,
        None => {
            give(program, &mut line[..width], table);
            run_fractions(table, budget)
        }
    }
}
