//! Room for the runs of programs, kept from one to the next.
ghost use Rattle.std.specs.Prelude.{◌≡◌, ◌+◌, ◌-◌, ◌*◌, ◌^◌, ◌<◌, ◌≤◌, Err, IfOk, OnOk, length, map, unsigned_abs};
ghost use Rattle.simplex_run.specs.Choose.{bases_of};
ghost use Rattle.simplex_run.specs.Optimum.{IsAsSaid};
ghost use Rattle.exact_num.specs.Fraction.{IsNotBelowZero};
ghost use Rattle.simplex_run.specs.Places.{at};
ghost use Rattle.simplex_run.specs.Run.{run as run_of};
ghost use Rattle.fraction_tableau.specs.Programs.{empty_program, with_row};
ghost use Rattle.fraction_tableau.specs.declared.limits.TheConstants.{MAX_SIDE};

use crate::attempt::run_given;
use crate::budget::Budget;
use crate::fill::zeros;
use crate::stage::Stage;
use crate::stop::RunStop;
use exact_num::Exact;
use fraction_tableau::{SparseProgram, Table};
use integer_tableau::WholeTable;
use std::alloc::{AllocError, Global};
use std::marker::Model;

/// Room for the runs of programs of so many rows and variables, one after another. Only `new` and
/// `reserve` take memory.
///
/// A program is given by its costs and then its rows, and run; its optimum is then read off.
pub struct Space<N: Exact> {
    rows: usize,
    columns: usize,
    stage: Stage,
    program: SparseProgram<N>,
    // for the run over fractions, and for that over rows of whole numbers
    table: Table<N>,
    whole: WholeTable,
    // room for a row of the program
    line: Vec<N>,
}

// Not derived: whoever owns a space lets it go by this one call, and not field by field.
impl<N: Exact> Drop for Space<N> {
    fn drop(self) {
        let Space {
            rows: _,
            columns: _,
            stage: _,
            program: _program,
            table: _table,
            whole: _whole,
            line: _line,
        } = self;
    }
}

impl<N: Exact> Model for Space<N> {
    ghost use Rattle.std.specs.Prelude.{unsigned_abs};
    ghost use Rattle.simplex.specs.Spaces.{Workspace, workspace_of, IsSpace};

    ghost Value = { Workspace };

    ghost view = { λ s. workspace_of N.fraction
        s.rows s.columns s.stage s.program s.table s.whole };

    ghost invariant = { λ s. IsSpace N.fraction (unsigned_abs N.LIMIT)
        s.rows s.columns s.stage s.program s.line.items s.table s.whole };
}

impl<N: Exact> Space<N> {
    ghost use Rattle.simplex.specs.Spaces.{nothing, given, program_given, IsProgramGiven, EndsAs, IsFound, x_of, y_of, reduced_of, value_of, direction_of};

    /// Room for programs of at most so many rows and columns, with no program. The error is want of
    /// memory.
    pub fn new(alloc: Global, rows: usize, columns: usize) -> Result<Space<N>, AllocError>
        requires rows { (1 ≤ rows) × (rows ≤ MAX_SIDE) }
        requires columns { (1 ≤ columns) × (columns ≤ MAX_SIDE) }
        ensures sizes { IfOk result (λ space. (space.rows ≡ rows) × (space.columns ≡ columns)) }
        ensures contents { IfOk result (λ space. space.contents ≡ nothing) }
    {
        Space::with_room(alloc, rows, columns)
    }

    /// The same where there may be no row or no column.
    pub fn with_room(alloc: Global, rows: usize, columns: usize) -> Result<Space<N>, AllocError>
        requires columns { columns ≤ MAX_SIDE }
        requires numbers { rows * (columns + 1) < 2 ^ 64 }
        ensures sizes { IfOk result (λ space. (space.rows ≡ rows) × (space.columns ≡ columns)) }
        ensures contents { IfOk result (λ space. space.contents ≡ nothing) }
    {
        let line = zeros(alloc, columns + 1)?;
        let program = SparseProgram::with_room(alloc, rows, columns)?;
        let table = Table::with_room(alloc, rows, columns)?;
        let whole = WholeTable::with_room(alloc, rows, columns)?;
        Ok(Space {
            rows,
            columns,
            stage: Stage::Empty,
            program,
            table,
            whole,
            line,
        })
    }

    /// Makes it room for programs of at least so many rows and columns: it is kept where it is
    /// large enough, and a new one is taken else. The error is want of memory.
    pub fn reserve(&mut self, alloc: Global, rows: usize, columns: usize) -> Result<(), AllocError>
        requires rows { (1 ≤ rows) × (rows ≤ MAX_SIDE) }
        requires columns { (1 ≤ columns) × (columns ≤ MAX_SIDE) }
        ensures sizes { OnOk result ((rows ≤ self.new.rows) × (columns ≤ self.new.columns)) }
    {
        if self.rows < rows || self.columns < columns {
            *self = Space::new(alloc, rows, columns)?;
        }
        Ok(())
    }

    /// Starts a program: these costs, and no row. What stood there before is gone.
    pub fn begin(&mut self, costs: &[N])
        requires { (1 ≤ length costs.now) × (length costs.now ≤ self.old.columns) }
        ensures { self.new ≡ record self.old {
          contents = given (empty_program (map N.fraction costs.now));
        } }
    {
        self.start(costs);
    }

    /// The same where there may be no cost.
    pub fn start(&mut self, costs: &[N])
        requires { length costs.now ≤ self.old.columns }
        ensures { self.new ≡ record self.old {
          contents = given (empty_program (map N.fraction costs.now));
        } }
    {
        self.program.begin(costs);
        self.stage = Stage::Given;
    }

    /// Adds the row `a · x <= b` at the end of the program.
    pub fn row(&mut self, a: &[N], b: N)
        requires given { IsProgramGiven self.old.contents }
        requires width { length a.now ≡ (program_given self.old.contents).variables }
        requires right_side { IsNotBelowZero (N.fraction b) }
        requires room { (program_given self.old.contents).rows < self.old.rows }
        ensures { self.new ≡ record self.old {
          contents = given
              (with_row (program_given self.old.contents) (map N.fraction a.now) (N.fraction b));
        } }
    {
        self.program.row(a, b);
    }

    /// The run of the program, a unit of the budget a pivot: true at an optimum, false where the
    /// objective rises without an end.
    ///
    /// `Wide` comes at the first step of the run that does not fit, `Budget` where the run wants
    /// one unit more than the budget has; units that were spent stay spent. With as many units left
    /// as there are ways to choose the basic variables, `Budget` never comes.
    pub fn run(&mut self, budget: &mut Budget) -> Result<bool, RunStop>
        requires { IsProgramGiven self.old.contents }
        ensures run { EndsAs
            (run_of (unsigned_abs N.LIMIT) (program_given self.old.contents)
            (budget.old.limit - budget.old.spent) budget.old.spent)
            result self.new.contents budget.new.spent }
        ensures holds { IsAsSaid (program_given self.old.contents)
            (run_of (unsigned_abs N.LIMIT) (program_given self.old.contents)
            (budget.old.limit - budget.old.spent) budget.old.spent) }
        ensures enough { result ≡ Err RunStop.Budget
            → budget.old.limit - budget.old.spent < bases_of (program_given self.old.contents) }
        ensures sizes { (self.new.rows ≡ self.old.rows) × (self.new.columns ≡ self.old.columns) }
        ensures limit { budget.new.limit ≡ budget.old.limit }
    {
        match run_given(
            &self.program,
            self.line.as_mut_slice(),
            &mut self.table,
            &mut self.whole,
            budget,
        ) {
            Ok(stage) => {
                self.stage = stage;
                Ok(stage.is_optimum())
            }
            Err(stop) => {
                self.stage = Stage::Stopped;
                Err(stop)
            }
        }
    }

    /// The value of variable j at the optimum that the last run found.
    pub fn x(&self, j: usize) -> N
        requires found { IsFound self.now.contents }
        requires place { j < length (x_of self.now.contents) }
        ensures { N.fraction result ≡ at (x_of self.now.contents) j }
    {
        match self.stage {
            Stage::WholeOptimal => self.whole.value_at(j),
            _ => self.table.value_at(j),
        }
    }

    /// The dual value of row i at the optimum that the last run found.
    pub fn y(&self, i: usize) -> N
        requires found { IsFound self.now.contents }
        requires place { i < length (y_of self.now.contents) }
        ensures { N.fraction result ≡ at (y_of self.now.contents) i }
    {
        match self.stage {
            Stage::WholeOptimal => self.whole.reduced_cost(self.whole.variables() + i),
            _ => self.table.reduced_cost(self.table.variables() + i),
        }
    }

    /// The reduced cost of variable j at the optimum that the last run found.
    pub fn reduced(&self, j: usize) -> N
        requires found { IsFound self.now.contents }
        requires place { j < length (reduced_of self.now.contents) }
        ensures { N.fraction result ≡ at (reduced_of self.now.contents) j }
    {
        match self.stage {
            Stage::WholeOptimal => self.whole.reduced_cost(j),
            _ => self.table.reduced_cost(j),
        }
    }

    /// The value of the optimum that the last run found.
    pub fn value(&self) -> N
        requires { IsFound self.now.contents }
        ensures { N.fraction result ≡ value_of self.now.contents }
    {
        match self.stage {
            Stage::WholeOptimal => self.whole.value(),
            _ => self.table.value(),
        }
    }

    /// Entry j of the direction that the last run ended with.
    pub fn direction(&self, j: usize) -> N
        requires { j < length (direction_of self.now.contents) }
        ensures { N.fraction result ≡ at (direction_of self.now.contents) j }
    {
        match self.stage {
            Stage::Unbounded { column } => self.table.direction_at(column, j),
            Stage::WholeUnbounded { column } => self.whole.direction_at(column, j),
            _ => N::zero(),
        }
    }
}
