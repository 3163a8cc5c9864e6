//! The table of a run. Nothing outside this file knows how it is laid out.
ghost use Rattle.std.specs.Prelude.{◌≡◌, ◌+◌, ◌-◌, ◌*◌, ◌^◌, ◌<◌, ◌≤◌, ℕ, IfOk, IfSome, [], length, map, position, true, unsigned_abs, vec_capacity, vec_len, slice_index_or, slice_set, ◌==◌};
ghost use Rattle.std.specs.Option.{option_map};
ghost use Rattle.fraction_tableau.specs.Candidates.{best_with};
ghost use Rattle.simplex_run.specs.Places.{numbers};
ghost use Rattle.fraction_tableau.specs.declared.limits.TheConstants.{MAX_SIDE};
ghost use Rattle.run_equivalence.specs.WholePivoting.{whole_entering, whole_pivoted, table_steps_within, whole_ratios};
ghost use Rattle.run_equivalence.specs.WholeRunning.{first_whole_table, whole_reduced_cost, whole_where_basic};
ghost use Rattle.run_equivalence.specs.IntegerRows.{entry_of, taken_in, widest};
ghost use Rattle.integer_tableau.specs.Eliminating.{IsKept};
ghost use Rattle.fraction_tableau.specs.Labels.{as_column};
ghost use Rattle.integer_tableau.specs.Rows.{IsPivot, row_in, row_at};

use crate::columns::least_column;
use crate::fraction::{fraction, take_numbers};
use crate::mix::PivotPlace;
use crate::objective::{Objective, Scratch};
use crate::pivot_end::PivotEnd;
use crate::rows::Rows;
use crate::wide::widen;
use crate::word::WIDEST;
use exact_num::Exact;
use fraction_tableau::room::write_numbers;
use fraction_tableau::{Entering, SparseProgram};
use lists::push_within;
use std::alloc::{AllocError, Global};

/// A table of rows of whole numbers. Each row is a denominator and the numbers of the columns that
/// are not basic, the right side last. All its memory is taken when it is made.
#[derive(Drop)]
pub struct WholeTable {
    // the variables of the columns, and the basic variable of each row
    labels: Vec<usize>,
    basics: Vec<usize>,
    // of each row, and of the objective row, the front counts
    rows: Rows,
    objective: Objective,
    scratch: Scratch,
    // room for the places where the entering column is not 0, and for a row that comes
    column_places: Vec<usize>,
    line: Vec<i64>,
    ghost count: { vec_len basics ≡ length rows.short.rows },
    ghost columns: { vec_len labels + 2 ≤ rows.short.width },
    ghost objective_width: { vec_len objective.numbers ≡ rows.short.width },
    ghost labels_room: { rows.short.width ≤ vec_capacity labels + 2 },
    ghost basics_room: { vec_len basics + rows.short.spare ≤ vec_capacity basics },
    ghost places_width: { vec_len scratch.places ≡ rows.short.width },
    ghost room_width: { vec_len scratch.room + 1 ≡ rows.short.width },
    ghost column_places_count: { vec_len column_places
        ≡ length rows.short.rows + rows.short.spare },
    ghost line_width: { vec_len line ≡ rows.short.width },
}

impl WholeTable {
    ghost use Rattle.fraction_tableau.specs.SparseRows.{program_in};
    ghost use Rattle.integer_tableau.specs.Tables.{as_whole, direction_entry, width_of, room_of, HasRow, IsListed, IsPivotEnd, IsWithin, SameRoom, SameShape};
    ghost use Rattle.integer_tableau.specs.Stored.{AreStored, rows_in};

    /// A table with room for as many rows of as many columns. It is that of no program yet.
    pub fn with_room(alloc: Global, rows: usize, columns: usize) -> Result<WholeTable, AllocError>
        requires { columns ≤ MAX_SIDE }
        ensures rows { IfOk result (λ table. rows ≤ room_of table) }
        ensures width { IfOk result (λ table. table.rows.short.width ≡ columns + 2) }
        ensures empty { IfOk result (λ table. (table.labels.items ≡ [])
            × (table.rows.short.rows ≡ [])) }
    {
        let width = columns + 2;
        let made = Rows::with_room(alloc, rows, width)?;
        let spare = made.spare();
        let labels = Vec::with_capacity(alloc, columns)?;
        let basics = Vec::with_capacity(alloc, spare)?;
        let numbers = vec![in alloc; 0_i128; width]?;
        let places = vec![in alloc; 0_usize; width]?;
        let room = vec![in alloc; 0_i128; columns + 1]?;
        let column_places = vec![in alloc; 0_usize; spare]?;
        let line = vec![in alloc; 0_i64; width]?;
        Ok(WholeTable {
            labels,
            basics,
            rows: made,
            objective: Objective { numbers, size: 0 },
            scratch: Scratch { places, room },
            column_places,
            line,
        })
    }

    /// Whether there is room for so many rows of so many columns.
    fn has_room(&self, rows: usize, columns: usize) -> bool
        ensures rows { result ≡ true → rows ≤ room_of self.now }
        ensures columns { result ≡ true → columns + 2 ≤ self.now.rows.short.width }
    {
        if columns > self.rows.width() - 2 {
            return false;
        }
        rows <= self.basics.len() + self.rows.spare()
    }

    /// Starts a table of the columns 0, 1 and so on, `columns` of them, with no row.
    fn begin(&mut self, columns: usize)
        requires { columns + 2 ≤ self.old.rows.short.width }
        ensures labels { self.new.labels.items ≡ numbers 0 columns }
        ensures columns { length self.new.labels.items ≡ columns }
        ensures basics { self.new.basics.items ≡ [] }
        ensures rows { rows_in self.new.rows ≡ [] }
        ensures room { SameRoom self.old self.new }
    {
        self.rows.clear();
        self.basics.clear();
        write_numbers(&mut self.labels, columns);
    }

    /// Writes the objective row, and says whether 64 bits hold it.
    fn take_objective<N: Exact>(&mut self, entries: &[N]) -> bool
        requires width { length entries.now ≡ width_of self.old }
        ensures line { result ≡ true → row_in (width_of self.old) self.new.objective.numbers.items
            ≡ taken_in (map N.fraction entries.now) }
        ensures kept { result ≡ true → IsKept widest (width_of self.old) self.new.objective.size
            (row_in (width_of self.old) self.new.objective.numbers.items) }
        ensures labels { self.new.labels.items ≡ self.old.labels.items }
        ensures basics { self.new.basics.items ≡ self.old.basics.items }
        ensures rows { self.new.rows ≡ self.old.rows }
    {
        if !take_numbers(self.line.as_mut_slice(), entries) {
            return false;
        }
        widen(self.objective.numbers.as_mut_slice(), self.line.as_slice());
        self.objective.size = WIDEST;
        true
    }

    /// Adds a row, where 64 bits hold it, and says whether they do.
    fn take_row<N: Exact>(&mut self, entries: &[N], basic: usize) -> bool
        requires width { length entries.now ≡ width_of self.old }
        requires room { length self.old.rows.short.rows < room_of self.old }
        ensures row { result ≡ true
            → HasRow (map N.fraction entries.now) basic self.old self.new }
        ensures stored { (limit : ℕ) → result ≡ true → widest ≤ limit
            → AreStored limit (width_of self.old) self.old.rows
            → AreStored limit (width_of self.old) self.new.rows }
        ensures labels { self.new.labels.items ≡ self.old.labels.items }
        ensures objective { self.new.objective ≡ self.old.objective }
        ensures room { SameRoom self.old self.new }
    {
        if !take_numbers(self.line.as_mut_slice(), entries) {
            return false;
        }
        push_within(&mut self.basics, basic);
        self.rows.append(self.line.as_slice());
        true
    }

    /// Becomes the first table of the program, each row over the least common denominator, and
    /// says whether it has room and 64 bits hold it. `row` is room for a row that comes.
    pub fn take_in<N: Exact>(&mut self, program: &SparseProgram<N>, line: &mut [N]) -> bool
        requires line { length line.old ≡ length program.now.costs.items + 1 }
        ensures table { result ≡ true
            → as_whole self.new ≡ first_whole_table (program_in N.fraction program.now) }
        ensures within { (limit : ℕ) → result ≡ true → widest ≤ limit → IsWithin limit self.new }
    {
        let columns = program.variables();
        if !self.has_room(program.rows(), columns) {
            return false;
        }
        self.begin(columns);
        program.write_objective(line);
        if !self.take_objective(line) {
            return false;
        }
        for i in 0..program.rows() {
            program.write_row(i, line);
            if !self.take_row(line, columns + i) {
                return false;
            }
        }
        true
    }

    /// The column that enters: of those whose number in the objective row is below 0 that of the
    /// smallest variable.
    #[tactic(auto, unfolding(run_equivalence::specs::WholePivoting::whole_entering))]
    pub fn entering(&self) -> Option<Entering>
        ensures column { option_map as_column result ≡ whole_entering (as_whole self.now) }
        ensures inside { IfSome result (λ c. c.place < length self.now.labels.items) }
    {
        let width = self.labels.len() + 1;
        least_column(
            self.labels.as_slice(),
            &self.objective.numbers[1..width + 1],
        )
    }

    /// Lists the rows that are not 0 in column `c`, and answers how many they are.
    fn list_column(&mut self, c: usize) -> usize
        requires column { c < length self.old.labels.items }
        requires within { (limit : ℕ) × IsWithin limit self.old }
        ensures listed { IsListed c result self.new }
        ensures table { as_whole self.new ≡ as_whole self.old }
        ensures within { (limit : ℕ) → IsWithin limit self.old → IsWithin limit self.new }
        ensures shape { SameShape self.old self.new }
    {
        self.rows.list_column(c, self.column_places.as_mut_slice())
    }

    /// The place of the row that leaves where column `c` enters, or None where nothing limits it.
    /// `count` rows are listed: those that are not 0 in the column.
    fn leaving(&self, c: usize, count: usize) -> Option<usize>
        requires column { c < length self.now.labels.items }
        requires listed { IsListed c count self.now }
        requires within { (limit : ℕ) × IsWithin limit self.now }
        ensures { result ≡ best_with None (whole_ratios (length self.now.labels.items) c 0
            (as_whole self.now).rows) }
    {
        let places = &self.column_places[..count];
        self.rows
            .leaving(self.basics.as_slice(), places, self.labels.len(), c)
    }

    /// The variable of column `c` becomes basic in row r, whose own gets the column.
    fn exchange(&mut self, c: usize, r: usize)
        requires column { c < length self.old.labels.items }
        requires row { r < length self.old.basics.items }
        ensures labels { self.new.labels.items
            ≡ slice_set self.old.labels.items c (slice_index_or self.old.basics.items r 0) }
        ensures basics { self.new.basics.items
            ≡ slice_set self.old.basics.items r (slice_index_or self.old.labels.items c 0) }
        ensures rows { self.new.rows ≡ self.old.rows }
        ensures objective { self.new.objective ≡ self.old.objective }
    {
        let leaving = self.basics[r];
        self.basics[r] = self.labels[c];
        self.labels[c] = leaving;
    }

    /// The variable of column `c` becomes basic in row r. Says whether each step is within the
    /// limit. `count` rows are listed: those that are not 0 in the column.
    fn pivot_at(&mut self, c: usize, count: usize, r: usize, limit: u128) -> bool
        requires column { c < length self.old.labels.items }
        requires listed { IsListed c count self.old }
        requires pivot { IsPivot (width_of self.old) c r (rows_in self.old.rows) }
        requires limit { (widest ≤ limit) × (limit ≤ 2 ^ 127 - 1) }
        requires within { IsWithin limit self.old }
        ensures fits { result ≡ true → table_steps_within limit c r
            (as_whole self.old).objective (as_whole self.old).rows ≡ true }
        ensures table { result ≡ true
            → as_whole self.new ≡ whole_pivoted c r (as_whole self.old) }
        ensures within { result ≡ true → IsWithin limit self.new }
        ensures shape { SameShape self.old self.new }
    {
        let width = self.labels.len() + 1;
        let step = PivotPlace {
            r,
            c,
            column_places: &self.column_places[..count],
            limit,
        };
        let fits = self.rows.pivot(
            &mut self.objective,
            self.scratch.places.as_mut_slice(),
            self.scratch.room.as_mut_slice(),
            width,
            step,
        );
        if fits {
            self.exchange(c, r);
        }
        fits
    }

    /// One pivot: column `c` enters. It is given up where a step may leave the limit.
    pub fn pivot(&mut self, c: usize, limit: u128) -> PivotEnd
        requires column { c < length self.old.labels.items }
        requires limit { (widest ≤ limit) × (limit ≤ 2 ^ 127 - 1) }
        requires within { IsWithin limit self.old }
        ensures pivoted { IsPivotEnd limit c result self.old self.new }
        ensures shape { SameShape self.old self.new }
    {
        let count = self.list_column(c);
        match self.leaving(c, count) {
            None => PivotEnd::Unlimited,
            Some(r) => {
                if self.pivot_at(c, count, r, limit) {
                    PivotEnd::Moved
                } else {
                    PivotEnd::GivenUp
                }
            }
        }
    }

    /// Whether a row has wanted 128 bits since the program was taken in.
    pub fn has_grown(&self) -> bool {
        self.rows.has_grown()
    }

    /// The number of variables.
    pub fn variables(&self) -> usize
        ensures { result ≡ length self.now.labels.items }
    {
        self.labels.len()
    }

    /// The place of the row where variable j is basic.
    fn place_of(&self, j: usize) -> Option<usize>
        ensures { result ≡ position (λ basic. basic == j) self.now.basics.items }
    {
        self.basics.iter().position(|basic| *basic == j)
    }

    /// The place of the column of variable j.
    fn column_of(&self, j: usize) -> Option<usize>
        ensures { result ≡ position (λ name. name == j) self.now.labels.items }
    {
        self.labels.iter().position(|name| *name == j)
    }

    /// The number at place k of a row, as a fraction.
    fn entry<N: Exact>(&self, i: usize, k: usize) -> N
        requires within { IsWithin (unsigned_abs N.LIMIT) self.now }
        requires row { i < length self.now.rows.short.rows }
        requires place { k < width_of self.now }
        ensures { N.fraction result
            ≡ entry_of (row_in (width_of self.now) (row_at (rows_in self.now.rows) i)) k }
    {
        let denominator = self.rows.number(i, 0).unsigned_abs();
        fraction(self.rows.number(i, k + 1), denominator)
    }

    /// The number at place k of the objective row, as a fraction.
    fn price<N: Exact>(&self, k: usize) -> N
        requires within { IsWithin (unsigned_abs N.LIMIT) self.now }
        requires place { k < width_of self.now }
        ensures { N.fraction result ≡ entry_of (as_whole self.now).objective k }
    {
        let numbers = &self.objective.numbers;
        fraction(numbers[k + 1], numbers[0].unsigned_abs())
    }

    /// The value of variable j: the right side of the row where it is basic, else 0.
    pub fn value_at<N: Exact>(&self, j: usize) -> N
        requires { IsWithin (unsigned_abs N.LIMIT) self.now }
        ensures { N.fraction result
            ≡ whole_where_basic (λ row. entry_of row.line (length self.now.labels.items)) j
            (as_whole self.now).rows }
    {
        match self.place_of(j) {
            None => N::zero(),
            Some(i) => self.entry(i, self.labels.len()),
        }
    }

    /// The objective entry of variable j: 0 where it is basic.
    pub fn reduced_cost<N: Exact>(&self, j: usize) -> N
        requires within { IsWithin (unsigned_abs N.LIMIT) self.now }
        requires variable { j < (as_whole self.now).columns }
        ensures { N.fraction result ≡ whole_reduced_cost (as_whole self.now) j }
    {
        match self.column_of(j) {
            None => N::zero(),
            Some(k) => self.price(k),
        }
    }

    /// What a step of 1 in the column changes in variable j.
    pub fn direction_at<N: Exact>(&self, column: Entering, j: usize) -> N
        requires within { IsWithin (unsigned_abs N.LIMIT) self.now }
        requires column { column.place < length self.now.labels.items }
        ensures { N.fraction result ≡ direction_entry (as_column column) (as_whole self.now) j }
    {
        if j == column.label {
            return N::one();
        }
        match self.place_of(j) {
            None => N::zero(),
            Some(i) => {
                let step: N = self.entry(i, column.place);
                step.neg()
            }
        }
    }

    /// The objective's value.
    pub fn value<N: Exact>(&self) -> N
        requires { IsWithin (unsigned_abs N.LIMIT) self.now }
        ensures { N.fraction result
            ≡ entry_of (as_whole self.now).objective (length self.now.labels.items) }
    {
        self.price(self.labels.len())
    }
}
