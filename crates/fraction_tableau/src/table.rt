//! The table of a run. Nothing outside this file knows how it is laid out.
ghost use Rattle.std.specs.Prelude.{◌≡◌, ◌+◌, ◌<◌, ◌≤◌, ◌==◌, false, IfOk, IfSome, length, map, position, unsigned_abs, vec_capacity, vec_len, slice_index_or, slice_set, get_or};
ghost use Rattle.exact_num.specs.Fits.{written_back};
ghost use Rattle.simplex_run.specs.Table.{first_table, right_side, where_basic, with_right};
ghost use Rattle.std.specs.Option.{option_map};
ghost use Rattle.simplex_run.specs.Choice.{entering};
ghost use Rattle.simplex_run.specs.Pivot.{after_pivot};
ghost use Rattle.simplex_run.specs.Run.{reduced_cost_of, pivoted};
ghost use Rattle.fraction_tableau.specs.Labels.{as_column};
ghost use Rattle.fraction_tableau.specs.Candidates.{leaving_of, IsPivot};
ghost use Rattle.fraction_tableau.specs.Lists.{lists_after_pivot};
ghost use Rattle.fraction_tableau.specs.Programs.{empty_program, with_row};
ghost use Rattle.fraction_tableau.specs.declared.limits.TheConstants.{MAX_SIDE};

use crate::columns::{Entering, least_column};
use crate::ratios::leaving;
use crate::room::{turn_signs, write_numbers};
use crate::rows::pivot_rows;
use exact_num::{Exact, Wide};
use lists::{RowArena, push_within, write_front, write_items};
use std::alloc::{AllocError, Global};

/// A table that keeps, row by row, the entries of the columns that are not basic and the right side
/// last. All its memory is taken when it is made.
#[derive(Drop)]
pub struct Table<N: Copy> {
    // the variables of the columns, in any order, and the basic variable of each row
    labels: Vec<usize>,
    basics: Vec<usize>,
    // of each row the first entries count, as many as the objective row has
    rows: RowArena<N>,
    objective: Vec<N>,
    // room for the columns of a pivot that are not skipped, and for a row that comes
    places: Vec<usize>,
    line: Vec<N>,
    ghost count: { vec_len basics ≡ length rows.rows },
    ghost columns: { vec_len objective ≡ vec_len labels + 1 },
    ghost width: { vec_len objective ≤ rows.width },
    ghost labels_room: { rows.width ≤ vec_capacity labels + 1 },
    ghost basics_room: { vec_len basics + rows.spare ≤ vec_capacity basics },
    ghost objective_room: { rows.width ≤ vec_capacity objective },
    ghost places_room: { rows.width ≤ vec_capacity places },
    ghost line_room: { vec_len line ≡ rows.width },
}

impl<N: Exact> Table<N> {
    ghost use Rattle.fraction_tableau.specs.Tables.{as_table, lists_of, objective_of, program_in, room_of, pivot_answer, direction_entry, columns_of, IsGiven, SameRoom, SameShape};

    /// A table with room for as many rows of as many columns. It is that of no program yet.
    pub fn with_room(alloc: Global, rows: usize, columns: usize) -> Result<Table<N>, AllocError>
        requires { columns ≤ MAX_SIDE }
        ensures rows { IfOk result (λ table. rows ≤ room_of table) }
        ensures width { IfOk result (λ table. table.rows.width ≡ columns + 1) }
    {
        let width = columns + 1;
        let mut arena = RowArena::new(alloc, width);
        arena.reserve(rows)?;
        let basics = Vec::with_capacity(alloc, arena.spare())?;
        let labels = Vec::with_capacity(alloc, columns)?;
        let places = Vec::with_capacity(alloc, width)?;
        let mut objective = Vec::with_capacity(alloc, width)?;
        push_within(&mut objective, N::zero());
        let mut line = Vec::with_capacity(alloc, width)?;
        line.resize(width, N::zero())?;
        Ok(Table {
            labels,
            basics,
            rows: arena,
            objective,
            places,
            line,
        })
    }

    /// Starts a program: these costs, and no row.
    pub fn begin(&mut self, costs: &[N])
        requires { length costs.now < self.old.rows.width }
        ensures program { program_in N.fraction self.new
            ≡ empty_program (map N.fraction costs.now) }
        ensures given { IsGiven N.fraction self.new }
        ensures room { SameRoom self.old self.new }
    {
        self.rows.release_from(0);
        self.basics.clear();
        write_numbers(&mut self.labels, costs.len());
        write_items(&mut self.objective, costs, N::zero());
    }

    /// Adds the row `a · x <= b` at the end of the program.
    pub fn row(&mut self, a: &[N], b: N)
        requires given { IsGiven N.fraction self.old }
        requires width { length a.now ≡ vec_len self.old.labels }
        requires room { length self.old.rows.rows < room_of self.old }
        ensures program { program_in N.fraction self.new
            ≡ with_row (program_in N.fraction self.old) (map N.fraction a.now) (N.fraction b) }
        ensures given { IsGiven N.fraction self.new }
        ensures room { SameRoom self.old self.new }
    {
        write_front(self.line.as_mut_slice(), a, b);
        push_within(&mut self.basics, a.len() + self.rows.len());
        self.rows.append(self.line.as_slice());
    }

    /// Becomes the first table of the program that was given.
    pub fn first(&mut self)
        requires { IsGiven N.fraction self.old }
        ensures table { as_table N.fraction self.new
            ≡ first_table (program_in N.fraction self.old) }
        ensures shape { SameShape self.old self.new }
    {
        turn_signs(self.objective.as_mut_slice());
    }

    /// The number of variables.
    pub fn variables(&self) -> usize
        ensures { result ≡ length self.now.labels.items }
    {
        self.labels.len()
    }

    /// The column that enters: of those whose objective entry is below 0 that of the smallest
    /// variable.
    pub fn entering(&self) -> Option<Entering>
        ensures column { option_map as_column result
            ≡ entering (as_table N.fraction self.now) }
        ensures inside { IfSome result (λ c. c.place < length self.now.labels.items) }
    {
        least_column(self.labels.as_slice(), self.objective.as_slice())
    }

    /// The place of the row that leaves where the column at place c enters, or None where nothing
    /// limits it.
    fn leaving(&self, c: usize) -> Result<Option<usize>, Wide>
        requires { c < length self.now.labels.items }
        ensures place { result ≡ leaving_of (unsigned_abs N.LIMIT)
            (length self.now.labels.items) c (as_table N.fraction self.now).rows }
        ensures pivot { (r : _) → result ≡ Ok (Some r)
            → IsPivot c r (lists_of N.fraction self.now) }
    {
        leaving(self.basics.as_slice(), &self.rows, self.labels.len(), c)
    }

    /// The rows of a pivot and the objective row; the labels are those after it.
    fn pivot_rows(&mut self, c: usize, r: usize) -> Result<(), Wide>
        requires column { c < length self.old.labels.items }
        requires pivot { IsPivot c r (lists_of N.fraction self.old) }
        ensures turned { written_back result
            (lists_of N.fraction self.new, objective_of N.fraction self.new)
            ≡ lists_after_pivot (unsigned_abs N.LIMIT) c
            (with_right (columns_of self.old) self.old.labels.items) r
            (lists_of N.fraction self.old) (objective_of N.fraction self.old) }
        ensures labels { self.new.labels.items ≡ self.old.labels.items }
        ensures basics { self.new.basics.items ≡ self.old.basics.items }
        ensures shape { SameShape self.old self.new }
    {
        pivot_rows(
            &mut self.rows,
            self.objective.as_mut_slice(),
            &mut self.places,
            self.labels.as_slice(),
            self.labels.len() + self.basics.len(),
            r,
            c,
        )
    }

    /// The variable of the column at place c becomes basic in row r, and the column that of the
    /// variable that leaves.
    fn exchange(&mut self, c: usize, r: usize)
        requires column { c < length self.old.labels.items }
        requires row { r < length self.old.basics.items }
        ensures labels { self.new.labels.items
            ≡ slice_set self.old.labels.items c (slice_index_or self.old.basics.items r 0) }
        ensures basics { self.new.basics.items
            ≡ slice_set self.old.basics.items r (get_or self.old.labels.items c 0) }
        ensures lists { lists_of N.fraction self.new ≡ lists_of N.fraction self.old }
        ensures objective { objective_of N.fraction self.new ≡ objective_of N.fraction self.old }
        ensures shape { SameShape self.old self.new }
    {
        let leaving = self.basics[r];
        self.basics[r] = self.labels[c];
        self.labels[c] = leaving;
    }

    /// The variable of the column at place c becomes basic in row r.
    fn pivot_at(&mut self, c: usize, r: usize) -> Result<(), Wide>
        requires column { c < length self.old.labels.items }
        requires pivot { IsPivot c r (lists_of N.fraction self.old) }
        ensures table { written_back result (as_table N.fraction self.new)
            ≡ after_pivot (unsigned_abs N.LIMIT) c r (as_table N.fraction self.old) }
        ensures shape { SameShape self.old self.new }
    {
        self.exchange(c, r);
        self.pivot_rows(c, r)
    }

    /// One pivot: the column at place c enters. True where a row left, false where nothing limits
    /// the column.
    pub fn pivot(&mut self, c: usize) -> Result<bool, Wide>
        requires { c < length self.old.labels.items }
        ensures pivoted { pivot_answer result (as_table N.fraction self.new)
            ≡ pivoted (unsigned_abs N.LIMIT) c (as_table N.fraction self.old) }
        ensures stays { result ≡ Ok false
            → as_table N.fraction self.new ≡ as_table N.fraction self.old }
        ensures shape { SameShape self.old self.new }
    {
        match self.leaving(c)? {
            None => Ok(false),
            Some(r) => {
                self.pivot_at(c, r)?;
                Ok(true)
            }
        }
    }

    /// The place of the row where variable j is basic.
    fn place_of(&self, j: usize) -> Option<usize>
        ensures { result ≡ position (λ basic. basic == j) self.now.basics.items }
    {
        self.basics.iter().position(|basic| *basic == j)
    }

    /// The place of the column of variable j, where it has one.
    fn column_of(&self, j: usize) -> Option<usize>
        ensures { result ≡ position (λ variable. variable == j) self.now.labels.items }
    {
        self.labels.iter().position(|variable| *variable == j)
    }

    /// The value of variable j: the right side of the row where it is basic, else 0.
    pub fn value_at(&self, j: usize) -> N
        ensures { N.fraction result
            ≡ where_basic (λ row. right_side (length self.now.labels.items) row.entries) j
            (as_table N.fraction self.now).rows }
    {
        match self.place_of(j) {
            None => N::zero(),
            Some(i) => self.rows.row(i)[self.labels.len()],
        }
    }

    /// The objective entry of variable j: 0 where it is basic.
    pub fn reduced_cost(&self, j: usize) -> N
        requires { j < columns_of self.now }
        ensures { N.fraction result ≡ reduced_cost_of (as_table N.fraction self.now) j }
    {
        match self.column_of(j) {
            None => N::zero(),
            Some(c) => self.objective[c],
        }
    }

    /// What a step of 1 in the column that enters changes in variable j.
    pub fn direction_at(&self, column: Entering, j: usize) -> N
        requires { column.place < length self.now.labels.items }
        ensures { N.fraction result
            ≡ direction_entry (as_column column) (as_table N.fraction self.now) j }
    {
        if j == column.label {
            return N::one();
        }
        match self.place_of(j) {
            None => N::zero(),
            Some(i) => self.rows.row(i)[column.place].neg(),
        }
    }

    /// The objective's value.
    pub fn value(&self) -> N
        ensures { N.fraction result
            ≡ right_side (length self.now.labels.items) (objective_of N.fraction self.now) }
    {
        self.objective[self.labels.len()]
    }
}
