//! The dual method.

use crate::entrants::take_first;
use crate::rows::plus_squares;
use crate::table::{Table, variable_at};
use std::alloc::AllocError;

/// What the method takes for nothing, for no pivot, and how many turns it may take.
#[derive(Clone, Copy)]
pub struct Turns {
    pub small: f64,
    pub pivot: f64,
    pub cap: u32,
}

/// A row that does not fit, and what its right side comes to at most, which is below 0.
#[derive(Clone, Copy)]
pub struct Stuck {
    pub row: usize,
    pub most: f64,
}

// How a turn ended.
#[derive(Clone, Copy)]
enum Turn {
    Taken,
    Fits,
    Cannot(Stuck),
}

// A row whose right side does not fit its bounds, whether it is above, and how far it is from where
// it fits.
#[derive(Clone, Copy)]
struct Misfit {
    row: usize,
    above: bool,
    distance: f64,
}

impl Table {
    // How a row does not fit, where it does not.
    fn misfit_at(&self, row: usize, small: f64) -> Option<Misfit> {
        let right = self.at(row, self.width());
        let bound = self.upper(variable_at(self.basic(), row));
        let above = right - bound > -right;
        let by = if above { right - bound } else { -right };
        if by <= small {
            return None;
        }
        let distance = by * by / self.length_at(row);
        Some(Misfit {
            row,
            above,
            distance,
        })
    }

    // 1 and the squares of a row's entries, together.
    fn length_at(&self, row: usize) -> f64 {
        match self.rows().get(row) {
            Some(numbers) => plus_squares(1.0, numbers, self.width()),
            None => 1.0,
        }
    }

    // The row that is furthest from where it fits.
    fn furthest(&self, small: f64) -> Option<Misfit> {
        let mut most = 0.0;
        let mut furthest = None;
        for row in self.objectives()..self.rows().len() {
            if let Some(misfit) = self.misfit_at(row, small) {
                if misfit.distance > most {
                    most = misfit.distance;
                    furthest = Some(misfit);
                }
            }
        }
        furthest
    }

    // The row that is furthest from where it fits, below 0 from now on.
    fn leaving(&mut self, small: f64) -> Option<usize> {
        let misfit = self.furthest(small)?;
        if misfit.above {
            self.flip_basic(misfit.row);
        }
        Some(misfit.row)
    }

    // The listed column that enters for a row. The variables of those before it, at whose bounds the
    // row still does not fit, are complemented.
    fn entering(&mut self, row: usize) -> Option<usize> {
        for _ in 0..self.width() {
            let listed = self.entrants.len();
            self.count_looks(listed);
            let entrant = take_first(&mut self.entrants)?;
            if self.at(row, self.width()) + entrant.room >= 0.0 || self.entrants.is_empty() {
                return Some(entrant.column);
            }
            self.flip_other(entrant.column);
        }
        None
    }

    // One turn of the dual method.
    fn dual_turn(&mut self, objective: usize, turns: Turns) -> Result<Turn, AllocError> {
        let Some(row) = self.leaving(turns.small) else {
            return Ok(Turn::Fits);
        };
        let room = self.list_entrants(objective, row, turns)?;
        let width = self.width();
        self.count_looks(width);
        let most = self.at(row, width) + room;
        if most < -turns.small {
            return Ok(Turn::Cannot(Stuck { row, most }));
        }
        let Some(column) = self.entering(row) else {
            return Ok(Turn::Fits);
        };
        if self.at(objective, column) < 0.0 {
            self.set(objective, column, 0.0);
        }
        self.pivot(row, column)?;
        Ok(Turn::Taken)
    }

    /// From a table in which this objective has no entry below 0: makes the right sides fit their
    /// bounds, until they do, one cannot, or all turns are taken. Answers the row that cannot.
    pub fn dual(&mut self, objective: usize, turns: Turns) -> Result<Option<Stuck>, AllocError> {
        for _ in 0..turns.cap {
            match self.dual_turn(objective, turns)? {
                Turn::Taken => {}
                Turn::Fits => return Ok(None),
                Turn::Cannot(stuck) => return Ok(Some(stuck)),
            }
        }
        Ok(None)
    }
}
