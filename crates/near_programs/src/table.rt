//! The condensed table.

use crate::entrants::{Entrant, list_entrants};
use crate::rows::{
    add_entry, add_times, clear, copy_row, eliminate, entry, flip_entry, flip_row, scale, set_entry,
};
use crate::steps::Turns;
use std::alloc::{AllocError, Global};

/// The bound of a variable that has none.
pub const UNBOUNDED: f64 = 1e300;

/// A condensed table with bounded variables. Each row says: basic = right side - sum of entry times
/// other variable. A variable that is not basic is 0, or complemented where it stands at its upper
/// bound. The first rows are objectives to be raised, which are basic as no variable.
#[derive(Clone, Drop)]
pub struct Table {
    alloc: Global,
    width: usize,
    objectives: usize,
    rows: Vec<Vec<f64>>,
    basic: Vec<usize>,
    other: Vec<usize>,
    upper: Vec<f64>,
    flipped: Vec<bool>,
    pivot_row: Vec<f64>,
    pub(crate) entrants: Vec<Entrant>,
    work: u64,
}

impl Table {
    /// A table of `width` variables without bounds, none of them basic, and so many objectives that
    /// are 0. The error is want of memory, as of each call that adds a row or turns.
    pub fn new(alloc: Global, width: usize, objectives: usize) -> Result<Table, AllocError> {
        Ok(Table {
            alloc,
            width,
            objectives,
            basic: vec![in alloc; usize::MAX; objectives]?,
            other: first_numbers(alloc, width)?,
            upper: vec![in alloc; UNBOUNDED; width]?,
            flipped: vec![in alloc; false; width]?,
            pivot_row: Vec::new(alloc),
            entrants: Vec::new(alloc),
            work: 0,
            rows: zero_rows(alloc, objectives, width)?,
        })
    }

    /// The allocator of the rows.
    pub fn allocator(&self) -> Global {
        self.alloc
    }

    /// How many variables are not basic.
    pub fn width(&self) -> usize {
        self.width
    }

    /// How many rows are objectives.
    pub fn objectives(&self) -> usize {
        self.objectives
    }

    /// How many entries its turns went over, those that were looked at one by one four times: what it
    /// cost so far, whatever the machine.
    pub fn work(&self) -> u64 {
        self.work
    }

    // Counts entries that a turn went over.
    fn count(&mut self, entries: usize) {
        self.work = self.work.saturating_add(entries as u64);
    }

    // Counts entries that were looked at one by one, which costs about four times as much.
    pub(crate) fn count_looks(&mut self, entries: usize) {
        self.count(entries.saturating_mul(4));
    }

    /// The rows: entries by column, and the right side behind them.
    pub fn rows(&self) -> &[Vec<f64>] {
        &self.rows
    }

    /// The variables of the rows.
    pub fn basic(&self) -> &[usize] {
        &self.basic
    }

    /// The variables of the columns.
    pub fn other(&self) -> &[usize] {
        &self.other
    }

    /// The number at a row and a column; the column behind the last is the right side.
    pub fn at(&self, row: usize, column: usize) -> f64 {
        match self.rows.get(row) {
            Some(numbers) => entry(numbers, column),
            None => 0.0,
        }
    }

    /// Writes a number.
    pub fn set(&mut self, row: usize, column: usize, number: f64) {
        if let Some(numbers) = self.rows.get_mut(row) {
            set_entry(numbers, column, number);
        }
    }

    /// The bound of a variable.
    pub fn upper(&self, variable: usize) -> f64 {
        bound_at(&self.upper, variable)
    }

    /// Bounds a variable that is 0.
    pub fn set_upper(&mut self, variable: usize, bound: f64) {
        set_entry(&mut self.upper, variable, bound);
    }

    /// Whether a variable stands for its bound less it.
    pub fn is_flipped(&self, variable: usize) -> bool {
        match self.flipped.get(variable) {
            Some(flipped) => *flipped,
            None => false,
        }
    }

    /// Puts a row behind the others, whose slack is a new variable without a bound. Answers that
    /// variable.
    pub fn add_row(&mut self, row: Vec<f64>) -> Result<usize, AllocError> {
        let slack = self.upper.len();
        self.upper.push(UNBOUNDED)?;
        self.flipped.push(false)?;
        self.rows.push(row)?;
        self.basic.push(slack)?;
        Ok(slack)
    }

    // The coefficient of a variable as the table has it.
    fn coefficient(&self, coefficients: &[f64], variable: usize) -> f64 {
        let coefficient = entry(coefficients, variable);
        if self.is_flipped(variable) {
            -coefficient
        } else {
            coefficient
        }
    }

    // The sum of coefficient times bound over the flipped variables.
    fn flipped_sum(&self, coefficients: &[f64]) -> f64 {
        let mut sum = 0.0;
        for (variable, coefficient) in coefficients.iter().enumerate() {
            if self.is_flipped(variable) {
                sum = sum + *coefficient * self.upper(variable);
            }
        }
        sum
    }

    // Writes the coefficients of the variables that are not basic into a row.
    fn add_columns(&self, row: &mut [f64], coefficients: &[f64]) {
        for (column, variable) in self.other.iter().enumerate() {
            add_entry(row, column, self.coefficient(coefficients, *variable));
        }
    }

    // Puts its row in place of each basic variable.
    fn subtract_rows(&self, row: &mut [f64], coefficients: &[f64]) {
        for (i, numbers) in self.rows.iter().enumerate() {
            let factor = self.coefficient(coefficients, variable_at(&self.basic, i));
            if factor != 0.0 {
                add_times(row, -factor, numbers);
            }
        }
    }

    /// Adds the row that says: the sum of coefficient times variable is at most 0. The coefficients
    /// are those of the first variables. Answers the variable of the slack.
    pub fn add_sum(&mut self, coefficients: &[f64]) -> Result<usize, AllocError> {
        let mut row = zero_row(self.alloc, self.width)?;
        set_entry(&mut row, self.width, -self.flipped_sum(coefficients));
        self.add_columns(&mut row, coefficients);
        self.subtract_rows(&mut row, coefficients);
        self.add_row(row)
    }

    /// The values of the first variables, put into a list that has a place for each.
    pub fn read_values(&self, values: &mut [f64]) {
        clear(values);
        for (i, numbers) in self.rows.iter().enumerate() {
            set_entry(
                values,
                variable_at(&self.basic, i),
                entry(numbers, self.width),
            );
        }
        self.turn_flipped(values);
    }

    // Turns the values of flipped variables to those of the variables themselves.
    fn turn_flipped(&self, values: &mut [f64]) {
        for variable in 0..values.len() {
            if self.is_flipped(variable) {
                let value = self.upper(variable) - entry(values, variable);
                set_entry(values, variable, value);
            }
        }
    }

    /// Takes a row that is no objective, and its slack that is basic there, out of the table.
    pub fn remove_row(&mut self, row: usize) {
        if row < self.rows.len() && row < self.basic.len() {
            let _ = self.rows.swap_remove(row);
            let _ = self.basic.swap_remove(row);
        }
    }

    /// The variable of this row and that of this column change places.
    pub fn pivot(&mut self, row: usize, column: usize) -> Result<(), AllocError> {
        if let Some(numbers) = self.rows.get_mut(row) {
            let inverse = 1.0 / entry(numbers, column);
            scale(numbers, inverse);
            set_entry(numbers, column, inverse);
            copy_row(&mut self.pivot_row, numbers)?;
        }
        self.eliminate_others(row, column);
        self.exchange(row, column);
        let entries = self.rows.len().saturating_mul(self.width);
        self.count(entries);
        Ok(())
    }

    fn eliminate_others(&mut self, row: usize, column: usize) {
        let pivot = self.pivot_row.as_slice();
        for (i, numbers) in self.rows.iter_mut().enumerate() {
            if i != row {
                eliminate(numbers, pivot, column);
            }
        }
    }

    fn exchange(&mut self, row: usize, column: usize) {
        let in_row = variable_at(&self.basic, row);
        let in_column = variable_at(&self.other, column);
        set_variable(&mut self.basic, row, in_column);
        set_variable(&mut self.other, column, in_row);
    }

    fn turn_flip(&mut self, variable: usize) {
        if let Some(flipped) = self.flipped.get_mut(variable) {
            *flipped = !*flipped;
        }
    }

    /// Complements the variable of a row.
    pub fn flip_basic(&mut self, row: usize) {
        let variable = variable_at(&self.basic, row);
        let bound = self.upper(variable);
        let side = self.width;
        if let Some(numbers) = self.rows.get_mut(row) {
            flip_row(numbers, side, bound);
        }
        self.turn_flip(variable);
    }

    /// Complements the variable of a column.
    pub fn flip_other(&mut self, column: usize) {
        let variable = variable_at(&self.other, column);
        let bound = self.upper(variable);
        let side = self.width;
        for numbers in self.rows.iter_mut() {
            flip_entry(numbers, column, side, bound);
        }
        self.turn_flip(variable);
        let entries = self.rows.len();
        self.count_looks(entries);
    }

    /// Complements the variables of columns in which an objective is below 0.
    pub fn flip_where_below(&mut self, objective: usize) {
        for column in 0..self.width {
            if self.at(objective, column) < 0.0 {
                self.flip_other(column);
            }
        }
    }

    /// Bounds a variable otherwise, wherever it stands: the right sides follow where it is complemented.
    pub fn change_upper(&mut self, variable: usize, bound: f64) {
        let more = bound - self.upper(variable);
        if self.is_flipped(variable) {
            match self.row_of(variable) {
                Some(row) => self.raise_right(row, more),
                None => self.raise_all_rights(variable, more),
            }
        }
        self.set_upper(variable, bound);
    }

    fn raise_right(&mut self, row: usize, more: f64) {
        let side = self.width;
        if let Some(numbers) = self.rows.get_mut(row) {
            add_entry(numbers, side, more);
        }
    }

    // Raises the right sides by what a complemented variable, which is not basic, is bounded by more.
    fn raise_all_rights(&mut self, variable: usize, more: f64) {
        let Some(column) = self.other.iter().position(|other| *other == variable) else {
            return;
        };
        let side = self.width;
        for numbers in self.rows.iter_mut() {
            let number = entry(numbers, column);
            add_entry(numbers, side, number * more);
        }
    }

    // Lists the columns that may enter for a row. Answers by how much they can raise its right side
    // together.
    pub(crate) fn list_entrants(
        &mut self,
        objective: usize,
        row: usize,
        turns: Turns,
    ) -> Result<f64, AllocError> {
        let Some(numbers) = self.rows.get(row) else {
            return Ok(0.0);
        };
        let Some(costs) = self.rows.get(objective) else {
            return Ok(0.0);
        };
        list_entrants(
            &mut self.entrants,
            numbers,
            costs,
            &self.other,
            &self.upper,
            turns,
        )
    }

    /// The row in which a variable is basic.
    pub fn row_of(&self, variable: usize) -> Option<usize> {
        self.basic.iter().position(|basic| *basic == variable)
    }

    /// The value of a variable.
    pub fn value_of(&self, variable: usize) -> f64 {
        let value = match self.row_of(variable) {
            Some(row) => self.at(row, self.width),
            None => 0.0,
        };
        if self.is_flipped(variable) {
            self.upper(variable) - value
        } else {
            value
        }
    }
}

// A row of zeros for so many columns and the right side.
fn zero_row(alloc: Global, width: usize) -> Result<Vec<f64>, AllocError> {
    vec![in alloc; 0.0; width.saturating_add(1)]
}

fn zero_rows(alloc: Global, count: usize, width: usize) -> Result<Vec<Vec<f64>>, AllocError> {
    let mut rows = Vec::new(alloc);
    for _ in 0..count {
        rows.push(zero_row(alloc, width)?)?;
    }
    Ok(rows)
}

fn first_numbers(alloc: Global, count: usize) -> Result<Vec<usize>, AllocError> {
    let mut numbers = Vec::new(alloc);
    for number in 0..count {
        numbers.push(number)?;
    }
    Ok(numbers)
}

/// The bound of a variable in a list; past its end none.
pub(crate) fn bound_at(upper: &[f64], variable: usize) -> f64 {
    match upper.get(variable) {
        Some(bound) => *bound,
        None => UNBOUNDED,
    }
}

/// The variable at a place of a list; past its end none.
pub fn variable_at(variables: &[usize], place: usize) -> usize {
    match variables.get(place) {
        Some(variable) => *variable,
        None => usize::MAX,
    }
}

fn set_variable(variables: &mut [usize], place: usize, variable: usize) {
    if let Some(old) = variables.get_mut(place) {
        *old = variable;
    }
}
