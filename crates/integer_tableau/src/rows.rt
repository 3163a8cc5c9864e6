//! The rows of a table, each in 64 bits where these hold it and else in 128.
ghost use Rattle.std.specs.Prelude.{◌≡◌, ◌≢◌, ◌+◌, ◌-◌, ◌^◌, ◌<◌, ◌≤◌, ℕ, IfOk, [], ◌∷◌, ◌++◌, false, length, take, true, unsigned_abs, vec_len};
ghost use Rattle.fraction_tableau.specs.Candidates.{best_with};
ghost use Rattle.run_equivalence.specs.IntegerRows.{IsIntegerRow, integer_row, row_size, number_at, widest};
ghost use Rattle.run_equivalence.specs.WholePivoting.{cut, whole_ratios};
ghost use Rattle.integer_tableau.specs.Choices.{entry_of, right_side_of};
ghost use Rattle.integer_tableau.specs.Eliminating.{IsEliminatedBy, IsKept};
ghost use Rattle.integer_tableau.specs.Rows.{IsPivot, beside_basics, column_in, row_in, integer_rows_in, nonzero_in, pivot_row_after, row_at};

use crate::front::{
    cut_front, cut_wide_front, eliminate_front, eliminate_wide_front, exchange_denominator,
    front_nonzero, narrow_front, widen_front, write_front, write_front_signs,
};
use crate::mix::{PivotPlace, PivotRow};
use crate::objective::Objective;
use crate::outcome::Eliminated;
use crate::ratios::{Candidate, RowRatio, better};
use crate::short_row::{list_place, size_of};
use crate::wide::wide_size;
use crate::word::WIDEST;
use lists::RowArena;
use std::alloc::{AllocError, Global};

/// The rows of a table. A row is its denominator and then its numbers, the right side last: of 64
/// bits, or of 128 where it is wide. All memory is taken when the rows are made.
#[derive(Drop)]
pub struct Rows {
    // the short rows: of a wide row its signs, which the choices of a pivot read first
    short: RowArena<i64>,
    // room for each row to be wide. A row is made, of these zeros, when a short one first has its
    // place, so that room that is not used is not written
    wide: RowArena<i128>,
    zeros: Vec<i128>,
    is_wide: Vec<bool>,
    // whether a row has grown beyond 64 bits since all were released
    grown: bool,
    // of each row a size that neither its denominator nor one of its numbers is above
    sizes: Vec<u128>,
    ghost wide_count: { length short.rows ≤ length wide.rows },
    ghost wide_room: { length short.rows + short.spare ≤ length wide.rows + wide.spare },
    ghost wide_width: { wide.width ≡ short.width },
    ghost zeros_count: { vec_len zeros ≡ short.width },
    ghost is_wide_count: { vec_len is_wide ≡ length short.rows + short.spare },
    ghost sizes_count: { vec_len sizes ≡ length short.rows + short.spare },
}

impl Rows {
    ghost use Rattle.integer_tableau.specs.Stored.{AreKept, AreRowsEliminated, AreStored, IsChangedAt, IsKnown, IsPlacedAt, IsRowEliminated, IsStep, IsStepMade, IsStored, IsWrittenAt, SameCounts, is_wide_at, rows_in, size_at};

    /// No rows, and room for as many of as many numbers each, the denominator among them.
    pub fn with_room(alloc: Global, rows: usize, width: usize) -> Result<Rows, AllocError>
        requires { (1 ≤ width) × (width ≤ 1048576) }
        ensures rows { IfOk result (λ made. (made.short.rows ≡ []) × (rows ≤ made.short.spare)) }
        ensures width { IfOk result (λ made. made.short.width ≡ width) }
    {
        let mut short = RowArena::new(alloc, width);
        short.reserve(rows)?;
        let mut wide = RowArena::new(alloc, width);
        wide.reserve(short.spare())?;
        let zeros = vec![in alloc; 0_i128; width]?;
        let is_wide = vec![in alloc; false; short.spare()]?;
        let sizes = vec![in alloc; 0_u128; short.spare()]?;
        Ok(Rows {
            short,
            wide,
            zeros,
            is_wide,
            grown: false,
            sizes,
        })
    }

    /// The number of rows.
    pub fn len(&self) -> usize
        ensures { result ≡ length self.now.short.rows }
    {
        self.short.len()
    }

    /// How many more rows have room.
    pub fn spare(&self) -> usize
        ensures { result ≡ self.now.short.spare }
    {
        self.short.spare()
    }

    /// How many numbers a row has room for, the denominator among them.
    pub fn width(&self) -> usize
        ensures { result ≡ self.now.short.width }
    {
        self.short.width()
    }

    /// Releases all rows.
    pub fn clear(&mut self)
        ensures rows { self.new.short.rows ≡ [] }
        ensures room { self.new.short.spare ≡ length self.old.short.rows + self.old.short.spare }
        ensures width { self.new.short.width ≡ self.old.short.width }
    {
        self.short.release_from(0);
        self.grown = false;
    }

    /// The next row has room to be wide.
    fn make_wide_room(&mut self)
        requires spare { 0 < self.old.short.spare }
        ensures room { length self.new.short.rows < length self.new.wide.rows }
        ensures rows { rows_in self.new ≡ rows_in self.old }
        ensures stored { (limit w : ℕ) → AreStored limit w self.old → AreStored limit w self.new }
        ensures count { SameCounts self.old self.new }
    {
        if self.wide.len() <= self.short.len() {
            self.wide.append(self.zeros.as_slice());
        }
    }

    /// Adds a row, which 64 bits hold in either sign.
    pub fn append(&mut self, row: &[i64])
        requires spare { 0 < self.old.short.spare }
        requires width { length row.now ≡ self.old.short.width }
        ensures rows { rows_in self.new ≡ rows_in self.old ++ row.now ∷ [] }
        ensures stored { (limit w : ℕ) → AreStored limit w self.old → widest ≤ limit
            → IsIntegerRow widest w (row_in w row.now) → AreStored limit w self.new }
        ensures count { length self.new.short.rows ≡ length self.old.short.rows + 1 }
        ensures spare { self.new.short.spare + 1 ≡ self.old.short.spare }
        ensures same_width { self.new.short.width ≡ self.old.short.width }
    {
        self.make_wide_room();
        let i = self.short.len();
        self.short.append(row);
        self.is_wide[i] = false;
        self.sizes[i] = WIDEST;
    }

    /// Whether a row has grown beyond 64 bits since all were released.
    pub fn has_grown(&self) -> bool {
        self.grown
    }

    /// The number at place k of a row, its denominator at place 0.
    pub fn number(&self, i: usize, k: usize) -> i128
        requires row { i < length self.now.short.rows }
        requires place { k < self.now.short.width }
        ensures { result ≡ number_at (row_at (rows_in self.now) i) k }
    {
        if self.is_wide[i] {
            self.wide.row(i)[k]
        } else {
            self.short.row(i)[k] as i128
        }
    }

    /// Lists the rows that are not 0 in column `c`, and answers how many they are.
    pub fn list_column(&self, c: usize, places: &mut [usize]) -> usize
        requires column { c + 1 < self.now.short.width }
        requires room { length self.now.short.rows ≤ length places.old }
        requires stored { (limit : ℕ) × (w : ℕ) × (c < w) × AreStored limit w self.now }
        ensures places { take result places.new ≡ nonzero_in (column_in c (rows_in self.now)) }
        ensures count { result ≤ length places.new }
    {
        let mut count = 0;
        for i in 0..self.len() {
            count = list_place(places, count, i, self.short.row(i)[c + 1]);
        }
        count
    }

    /// The ratio of row i of `width` numbers for column `c`.
    fn ratio(&self, i: usize, width: usize, c: usize) -> RowRatio
        requires row { i < length self.now.short.rows }
        requires widths { (c < width) × (width < self.now.short.width) }
        ensures right_side { right_side_of result ≡ number_at (row_at (rows_in self.now) i) width }
        ensures entry { entry_of result
            ≡ unsigned_abs (number_at (row_at (rows_in self.now) i) (c + 1)) }
    {
        if self.is_wide[i] {
            let row = self.wide.row(i);
            RowRatio::Wide {
                right_side: row[width],
                entry: row[c + 1].unsigned_abs(),
            }
        } else {
            let row = self.short.row(i);
            RowRatio::Short {
                right_side: row[width],
                entry: row[c + 1].unsigned_abs(),
            }
        }
    }

    /// The place of the row that leaves where column `c` enters: of the rows of least ratio that
    /// with the smallest basic variable. None where no row limits the variable. `places` are the
    /// rows that are not 0 in the column.
    pub fn leaving(
        &self,
        basics: &[usize],
        places: &[usize],
        columns: usize,
        c: usize,
    ) -> Option<usize>
        requires count { length basics.now ≡ length self.now.short.rows }
        requires columns { (c < columns) × (columns + 1 < self.now.short.width) }
        requires stored { (limit : ℕ) × AreStored limit (columns + 1) self.now }
        requires places { places.now ≡ nonzero_in (column_in c (rows_in self.now)) }
        ensures { result ≡ best_with None (whole_ratios columns c 0
            (beside_basics basics.now (integer_rows_in (columns + 1) (rows_in self.now)))) }
    {
        let mut best: Option<Candidate> = None;
        for place in places {
            let i = *place;
            let sign = self.short.row(i)[c + 1];
            if sign > 0 {
                let next = Candidate {
                    place: i,
                    basic: basics[i],
                    ratio: self.ratio(i, columns + 1, c),
                };
                best = Some(better(best, next));
            }
        }
        match best {
            None => None,
            Some(least) => Some(least.place),
        }
    }

    /// A wide row of `width` numbers, which 64 bits hold, becomes short.
    fn narrow_row(&mut self, i: usize, width: usize)
        requires row { i < length self.old.short.rows }
        requires width { width < self.old.short.width }
        requires wide { is_wide_at self.old i ≡ true }
        requires line { IsIntegerRow widest width (row_in width (row_at self.old.wide.rows i)) }
        requires size { row_size (row_in width (row_at self.old.wide.rows i))
            ≤ size_at self.old i }
        requires size_short { size_at self.old i < 2 ^ 64 }
        ensures line { row_in width (row_at (rows_in self.new) i)
            ≡ row_in width (row_at (rows_in self.old) i) }
        ensures written { IsWrittenAt width i self.old self.new }
    {
        narrow_front(self.short.row_mut(i), self.wide.row(i), width);
        self.is_wide[i] = false;
    }

    /// A row of `width` numbers becomes wide, where it is not.
    fn widen_row(&mut self, i: usize, width: usize)
        requires row { i < length self.old.short.rows }
        requires width { width < self.old.short.width }
        requires stored { IsStored width self.old i }
        ensures line { row_in width (row_at (rows_in self.new) i)
            ≡ row_in width (row_at (rows_in self.old) i) }
        ensures wide { is_wide_at self.new i ≡ true }
        ensures written { IsWrittenAt width i self.old self.new }
    {
        if self.is_wide[i] {
            return;
        }
        widen_front(self.wide.row_mut(i), self.short.row(i), width);
        self.is_wide[i] = true;
    }

    /// The short row of a wide one becomes its signs.
    fn keep_signs(&mut self, i: usize, width: usize)
        requires row { i < length self.old.short.rows }
        requires width { width < self.old.short.width }
        requires wide { is_wide_at self.old i ≡ true }
        requires size { row_size (row_in width (row_at self.old.wide.rows i))
            ≤ size_at self.old i }
        ensures rows { rows_in self.new ≡ rows_in self.old }
        ensures wide { is_wide_at self.new i ≡ is_wide_at self.old i }
        ensures written { IsWrittenAt width i self.old self.new }
    {
        write_front_signs(self.short.row_mut(i), self.wide.row(i), width);
    }

    /// A wide row that was made anew becomes short where 64 bits hold it, and has its signs where
    /// they do not.
    fn settle(&mut self, i: usize, width: usize)
        requires row { i < length self.old.short.rows }
        requires width { width < self.old.short.width }
        requires wide { is_wide_at self.old i ≡ true }
        requires line { (limit : ℕ) × IsIntegerRow limit width
            (row_in width (row_at self.old.wide.rows i)) }
        requires size { row_size (row_in width (row_at self.old.wide.rows i))
            ≤ size_at self.old i }
        ensures line { row_in width (row_at (rows_in self.new) i)
            ≡ row_in width (row_at (rows_in self.old) i) }
        ensures written { IsWrittenAt width i self.old self.new }
    {
        if self.sizes[i] <= WIDEST {
            self.narrow_row(i, width);
        } else {
            self.keep_signs(i, width);
        }
    }

    /// Brings row r to lowest terms.
    fn cut_row(&mut self, r: usize, width: usize)
        requires row { r < length self.old.short.rows }
        requires width { width < self.old.short.width }
        requires line { IsIntegerRow (2 ^ 127 - 1) width (row_in width (row_at (rows_in self.old) r)) }
        requires stored { IsStored width self.old r }
        ensures line { row_in width (row_at (rows_in self.new) r)
            ≡ cut (row_in width (row_at (rows_in self.old) r)) }
        ensures written { IsWrittenAt width r self.old self.new }
    {
        if !self.is_wide[r] {
            cut_front(self.short.row_mut(r), width);
            return;
        }
        cut_wide_front(self.wide.row_mut(r), width);
        self.sizes[r] = wide_size(&self.wide.row(r)[..width + 1]);
        self.settle(r, width);
    }

    /// Row r, which is in lowest terms, becomes the pivot row: its numbers stand over the one in
    /// column `c`, which is above 0 and in whose place the old denominator comes. Answers that
    /// number.
    fn exchange_row(&mut self, r: usize, c: usize, width: usize) -> u128
        requires row { r < length self.old.short.rows }
        requires widths { (c < width) × (width < self.old.short.width) }
        requires line { IsIntegerRow (2 ^ 127 - 1) width (row_in width (row_at (rows_in self.old) r)) }
        requires above { 0 < unsigned_abs
            (number_at (row_in width (row_at (rows_in self.old) r)).numbers c) }
        requires stored { IsStored width self.old r }
        ensures pivot { row_in width (row_at (rows_in self.new) r)
            ≡ pivot_row_after c result (row_in width (row_at (rows_in self.old) r)) }
        ensures denominator { result ≡ unsigned_abs
            (number_at (row_in width (row_at (rows_in self.old) r)).numbers c) }
        ensures written { IsWrittenAt width r self.old self.new }
    {
        if self.is_wide[r] {
            exchange_denominator(self.wide.row_mut(r), c);
            self.keep_signs(r, width);
        } else {
            exchange_denominator(self.short.row_mut(r), c);
        }
        self.number(r, 0).unsigned_abs()
    }

    /// A size that neither the denominator of row i nor one of its numbers is above, which becomes
    /// the one that is kept with it.
    fn size_anew(&mut self, i: usize, width: usize) -> u128
        requires row { i < length self.old.short.rows }
        requires width { width < self.old.short.width }
        requires stored { IsStored width self.old i }
        ensures size { row_size (row_in width (row_at (rows_in self.old) i)) ≤ result }
        ensures short { is_wide_at self.old i ≡ false → result < 2 ^ 64 }
        ensures rows { rows_in self.new ≡ rows_in self.old }
        ensures wide { is_wide_at self.new i ≡ is_wide_at self.old i }
        ensures written { IsWrittenAt width i self.old self.new }
    {
        let size = if self.is_wide[i] {
            wide_size(&self.wide.row(i)[..width + 1])
        } else {
            size_of(&self.short.row(i)[..width + 1]) as u128
        };
        self.sizes[i] = size;
        size
    }

    /// A short row becomes the wide one of these numbers over the denominator, which 64 bits do not
    /// hold.
    fn grow(&mut self, i: usize, denominator: u128, numbers: &[i128])
        requires row { i < length self.old.short.rows }
        requires width { length numbers.now < self.old.short.width }
        requires denominator { denominator ≤ 2 ^ 127 - 1 }
        ensures line { row_in (length numbers.now) (row_at (rows_in self.new) i)
            ≡ integer_row denominator numbers.now }
        ensures written { IsWrittenAt (length numbers.now) i self.old self.new }
    {
        write_front(self.wide.row_mut(i), denominator, numbers);
        self.is_wide[i] = true;
        self.grown = true;
        self.sizes[i] = wide_size(numbers) | denominator;
        self.keep_signs(i, numbers.len());
    }

    /// Eliminates the pivot's column from a short row by a short pivot row. Says whether each step is
    /// within the limit.
    fn eliminate_short_row(&mut self, i: usize, known: PivotRow, room: &mut [i128]) -> bool
        requires rows { (i < length self.old.short.rows) × (known.step.r ≢ i) }
        requires width { length room.old < self.old.short.width }
        requires line { IsIntegerRow known.step.limit (length room.old)
            (row_in (length room.old) (row_at (rows_in self.old) i)) }
        requires stored { IsStored (length room.old) self.old i }
        requires pivot { IsKnown known (length room.old) self.old }
        requires short { (is_wide_at self.old i ≡ false)
            × (is_wide_at self.old known.step.r ≡ false) }
        ensures eliminated { result ≡ true
            → IsRowEliminated known.entry (length room.old) i self.old self.new }
        ensures count { SameCounts self.old self.new }
    {
        let mut size = self.sizes[i] as u64;
        let (pivot, row) = self.short.pair(known.step.r, i);
        match eliminate_front(row, &mut size, pivot, known, room) {
            Eliminated::Short { .. } => self.sizes[i] = size as u128,
            Eliminated::Wide { denominator } => self.grow(i, denominator, room),
            Eliminated::Misfit => return false,
        }
        true
    }

    /// Eliminates the pivot's column from a wide row by a pivot row of either width, up to its signs.
    /// Says whether each step is within the limit.
    fn mix_wide_row(&mut self, i: usize, known: PivotRow, width: usize) -> bool
        requires rows { (i < length self.old.short.rows) × (known.step.r ≢ i) }
        requires width { width < self.old.short.width }
        requires line { IsKept known.step.limit width (size_at self.old i)
            (row_in width (row_at self.old.wide.rows i)) }
        requires pivot { IsKnown known width self.old }
        requires wide { is_wide_at self.old i ≡ true }
        ensures eliminated { result ≡ true → IsEliminatedBy known.entry
            (row_in width (row_at (rows_in self.old) known.entry.step.r)).numbers
            (row_in width (row_at self.old.wide.rows i))
            (row_in width (row_at self.new.wide.rows i)) }
        ensures size { result ≡ true → row_size (row_in width (row_at self.new.wide.rows i))
            ≤ size_at self.new i }
        ensures wide { is_wide_at self.new i ≡ true }
        ensures changed { IsChangedAt i self.old self.new }
    {
        let mut size = self.sizes[i];
        let is_eliminated = if self.is_wide[known.step.r] {
            let (pivot, row) = self.wide.pair(known.step.r, i);
            eliminate_wide_front(row, &mut size, pivot, known, width)
        } else {
            let pivot = self.short.row(known.step.r);
            eliminate_wide_front(self.wide.row_mut(i), &mut size, pivot, known, width)
        };
        self.sizes[i] = size;
        is_eliminated
    }

    /// Eliminates the pivot's column from a row in 128 bits. Says whether each step is within the limit.
    fn eliminate_wide_row(&mut self, i: usize, known: PivotRow, width: usize) -> bool
        requires rows { (i < length self.old.short.rows) × (known.step.r ≢ i) }
        requires width { width < self.old.short.width }
        requires line { IsIntegerRow known.step.limit width
            (row_in width (row_at (rows_in self.old) i)) }
        requires stored { IsStored width self.old i }
        requires pivot { IsKnown known width self.old }
        ensures eliminated { result ≡ true
            → IsRowEliminated known.entry width i self.old self.new }
        ensures count { SameCounts self.old self.new }
    {
        self.widen_row(i, width);
        if !self.mix_wide_row(i, known, width) {
            return false;
        }
        self.settle(i, width);
        true
    }

    /// Eliminates the pivot's column from a row: in 64 bits where neither row is wide. Says whether each
    /// step is within the limit. `room` has as many places as a row has numbers.
    fn eliminate_row(&mut self, i: usize, known: PivotRow, room: &mut [i128]) -> bool
        requires rows { (i < length self.old.short.rows) × (known.step.r ≢ i) }
        requires width { length room.old < self.old.short.width }
        requires line { IsIntegerRow known.step.limit (length room.old)
            (row_in (length room.old) (row_at (rows_in self.old) i)) }
        requires stored { IsStored (length room.old) self.old i }
        requires pivot { IsKnown known (length room.old) self.old }
        ensures eliminated { result ≡ true
            → IsRowEliminated known.entry (length room.old) i self.old self.new }
        ensures count { SameCounts self.old self.new }
    {
        if self.is_wide[i] || self.is_wide[known.step.r] {
            self.eliminate_wide_row(i, known, room.len())
        } else {
            self.eliminate_short_row(i, known, room)
        }
    }

    /// Eliminates the pivot's column from each row but row r, up to the first with a step that may leave the limit,
    /// and says whether there is none. `column_places` are the rows that are not 0 in the column:
    /// the others stay.
    #[inline(never)]
    fn eliminate_rows(&mut self, known: PivotRow, room: &mut [i128]) -> bool
        requires width { length room.old < self.old.short.width }
        requires stored { AreStored known.step.limit (length room.old) self.old }
        requires pivot { IsKnown known (length room.old) self.old }
        requires places { known.step.column_places.now
            ≡ nonzero_in (column_in known.step.c (rows_in self.old)) }
        ensures eliminated { result ≡ true
            → AreRowsEliminated known.entry (length room.old) self.old self.new }
        ensures count { SameCounts self.old self.new }
    {
        let PivotPlace {
            r,
            column_places,
            ..
        } = known.step;
        for place in column_places {
            let i = *place;
            if i != r {
                if !self.eliminate_row(i, known, room) {
                    return false;
                }
            }
        }
        true
    }

    /// Eliminates the pivot's column from the objective row, and says whether each step is within the
    /// limit.
    fn eliminate_objective(&self, objective: &mut Objective, known: PivotRow, width: usize) -> bool
        requires widths { (width < self.now.short.width)
            × (width < length objective.old.numbers.items) }
        requires line { IsKept known.step.limit width objective.old.size
            (row_in width objective.old.numbers.items) }
        requires pivot { IsKnown known width self.now }
        ensures eliminated { result ≡ true → IsEliminatedBy known.entry
            (row_in width (row_at (rows_in self.now) known.entry.step.r)).numbers
            (row_in width objective.old.numbers.items)
            (row_in width objective.new.numbers.items) }
        ensures size { result ≡ true
            → row_size (row_in width objective.new.numbers.items) ≤ objective.new.size }
        ensures places { length objective.new.numbers.items
            ≡ length objective.old.numbers.items }
    {
        let r = known.step.r;
        if self.is_wide[r] {
            objective.eliminate(self.wide.row(r), known, width)
        } else {
            objective.eliminate(self.short.row(r), known, width)
        }
    }

    /// Row r becomes the pivot row. Answers the number that its numbers stand over then, and a size
    /// that none of them is above.
    fn place_pivot(&mut self, r: usize, c: usize, width: usize) -> (u128, u128)
        requires width { width < self.old.short.width }
        requires pivot { IsPivot width c r (rows_in self.old) }
        requires line { IsIntegerRow (2 ^ 127 - 1) width (row_in width (row_at (rows_in self.old) r)) }
        requires stored { IsStored width self.old r }
        ensures { IsPlacedAt width c r result.0 result.1 self.old self.new }
    {
        self.cut_row(r, width);
        let a = self.exchange_row(r, c, width);
        (a, self.size_anew(r, width))
    }

    /// The rows of a pivot and the objective row, of `width` numbers each. Says whether each step is
    /// within the limit. `places` is room for the places where the pivot row is not 0, and `room`
    /// for the numbers of a row in 128 bits before it is cut.
    pub fn pivot(
        &mut self,
        objective: &mut Objective,
        places: &mut [usize],
        room: &mut [i128],
        width: usize,
        step: PivotPlace,
    ) -> bool
        requires widths { (width < self.old.short.width)
            × (width < length objective.old.numbers.items) }
        requires room { (width ≤ length room.old) × (width ≤ length places.old) }
        requires step { IsStep step width self.old objective.old }
        ensures pivoted { result ≡ true
            → IsStepMade step.entry width self.old objective.old self.new objective.new }
        ensures kept { result ≡ true → AreKept step.entry.limit width self.new objective.new }
        ensures shape { SameCounts self.old self.new × (length objective.new.numbers.items
            ≡ length objective.old.numbers.items) }
    {
        let PivotPlace { r, c, .. } = step;
        let (a, most) = self.place_pivot(r, c, width);
        let count = front_nonzero(self.short.row(r), width, places);
        let known = PivotRow {
            step,
            a,
            most,
            places: &places[..count],
        };
        if !self.eliminate_objective(objective, known, width) {
            return false;
        }
        self.eliminate_rows(known, &mut room[..width])
    }
}
