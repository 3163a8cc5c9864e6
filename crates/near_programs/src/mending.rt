//! Sums of entries in whole units, and slopes that rounding brought above 0, mended by whole units
//! of single multipliers.

use crate::numbers::{plus_product, set_whole, whole_at};
use std::alloc::{AllocError, Global};

/// What has a multiplier: the entries of its form, what each unit adds of them to the sums, and the
/// most units that it may have.
#[derive(Clone, Copy)]
pub struct Lever {
    pub entries: [i64; 9],
    pub factor: i128,
    pub most: i128,
}

/// Whole multipliers, one for each lever, and the sums of the entries with them.
#[derive(Drop)]
pub struct WholeSums {
    pub multipliers: Vec<i128>,
    pub sums: [i128; 9],
}

/// Adds so many units of a form to the sums. None where that does not fit.
pub fn add_units(sums: &mut [i128; 9], entries: &[i64; 9], units: i128) -> Option<()> {
    for (place, entry) in entries.iter().enumerate() {
        let sum = plus_product(whole_at(sums, place), units, i128::from(*entry))?;
        set_whole(sums, place, sum);
    }
    Some(())
}

// The first slope above 0.
fn first_above(sums: &[i128; 9]) -> Option<usize> {
    for (i, sum) in sums.iter().enumerate() {
        if i > 0 && *sum > 0 {
            return Some(i);
        }
    }
    None
}

// The units by which a multiplier has to move so that a slope comes to 0 or below, below 0 where it
// has to fall: a multiple of the grid.
fn move_for(lever: &Lever, slope: usize, above: i128, grid: i128) -> Option<i128> {
    let entry = i128::from(*lever.entries.get(slope)?).saturating_mul(lever.factor);
    if entry == 0 {
        return None;
    }
    let size = entry.saturating_abs().saturating_mul(grid).max(1);
    let steps = above
        .saturating_add(size)
        .saturating_sub(1)
        .div_euclid(size);
    let units = steps.saturating_mul(grid);
    Some(if entry < 0 {
        units
    } else {
        0i128.saturating_sub(units)
    })
}

// Whether a slope is above 0 that was lower before.
fn raises_above(sums: &[i128; 9], before: &[i128; 9]) -> bool {
    for (place, sum) in sums.iter().enumerate() {
        if place > 0 && *sum > 0 && *sum > whole_at(before, place) {
            return true;
        }
    }
    false
}

// The sums after a move, where it lets no slope that it raises be above 0.
fn moved(sums: &[i128; 9], lever: &Lever, units: i128) -> Option<[i128; 9]> {
    let mut next = *sums;
    add_units(
        &mut next,
        &lever.entries,
        units.saturating_mul(lever.factor),
    )?;
    if raises_above(&next, sums) {
        None
    } else {
        Some(next)
    }
}

impl WholeSums {
    // Moves a multiplier by so many units, where it may be that and raises no slope above 0.
    // Answers whether it did.
    fn move_by(&mut self, place: usize, lever: &Lever, units: i128) -> bool {
        let next = whole_at(&self.multipliers, place).saturating_add(units);
        if next < 0 || next > lever.most {
            return false;
        }
        let Some(sums) = moved(&self.sums, lever, units) else {
            return false;
        };
        set_whole(&mut self.multipliers, place, next);
        self.sums = sums;
        true
    }

    // Tries to mend a slope by one lever. Answers whether it did.
    fn mend_by(&mut self, place: usize, lever: &Lever, slope: usize, grid: i128) -> bool {
        if lever.most <= 0 {
            return false;
        }
        let above = whole_at(&self.sums, slope);
        match move_for(lever, slope, above, grid) {
            Some(units) => self.move_by(place, lever, units),
            None => false,
        }
    }

    // Mends a slope by the first lever that can.
    fn mend(&mut self, levers: &[Lever], slope: usize, grid: i128) -> bool {
        for (place, lever) in levers.iter().enumerate() {
            if self.mend_by(place, lever, slope, grid) {
                return true;
            }
        }
        false
    }

    // Mends slopes until none is above 0, by at most so many moves. Answers whether it is so.
    fn mend_all(&mut self, levers: &[Lever], grid: i128, moves: usize) -> bool {
        for _ in 0..moves {
            let Some(slope) = first_above(&self.sums) else {
                return true;
            };
            if !self.mend(levers, slope, grid) {
                return false;
            }
        }
        first_above(&self.sums).is_none()
    }

    // Adds the multipliers to the sums. None where that does not fit.
    fn add_multipliers(&mut self, levers: &[Lever]) -> Option<()> {
        for (place, lever) in levers.iter().enumerate() {
            let units = whole_at(&self.multipliers, place).saturating_mul(lever.factor);
            add_units(&mut self.sums, &lever.entries, units)?;
        }
        Some(())
    }

    /// These sums with these multipliers, and slopes above 0 mended by at most so many moves of
    /// multiples of the grid. None where a slope stays above 0, or a sum does not fit.
    pub fn mended(
        multipliers: Vec<i128>,
        sums: [i128; 9],
        levers: &[Lever],
        grid: i128,
        moves: usize,
    ) -> Option<WholeSums> {
        let mut whole = WholeSums { multipliers, sums };
        whole.add_multipliers(levers)?;
        if whole.mend_all(levers, grid, moves) {
            Some(whole)
        } else {
            None
        }
    }
}

/// A multiplier of 0 for each lever. The error is want of memory.
pub fn no_multipliers(alloc: Global, levers: &[Lever]) -> Result<Vec<i128>, AllocError> {
    vec![in alloc; 0i128; levers.len()]
}
