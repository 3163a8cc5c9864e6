//! Leaves closed in whole numbers, with few multipliers of few digits, so that their text is short.
//!
//! Fills, kinks and multipliers are in units of 2^-40; the sums of a leaf's entries are in steps of
//! 2^-12 of a unit, as the bounds of classes are.

use crate::bounds::{Bound, MIX_BITS, Mix, class_at, steps_in_one};
use crate::chords::Cell;
use crate::classes::{Class, Classes};
use crate::leaf::{CellLeaf, columns_of};
use crate::netting::WholeNet;
use near_programs::mending::{Lever, WholeSums, add_units, no_multipliers};
use near_programs::node::sign_at;
use near_programs::numbers::{float_of, nearest_whole, plus_product, set_whole, two_to, whole_at};
use near_programs::rounding::{FILL_BITS, scaled_unit};
use near_programs::{
    Book, Column, EntrySums, NearMultiplier, SMALL, close_columns, entry, power, set_entry,
    solve_columns,
};
use std::alloc::{AllocError, Global};

// How far below 0 slopes are asked to be, one after another.
const BELOW: [f64; 4] = [
    0.0,
    2.9103830456733704e-11,
    9.313225746154785e-10,
    1.4901161193847656e-8,
];
// The bits after the point that multipliers of a leaf may have, one after another.
const COARSE_BITS: [u32; 3] = [0, 4, 12];
// How often a leaf's slopes are mended for each underlying.
const MENDS: usize = 4;
// What a multiplier of a class with a sign costs for each 1 of it, in scaled fills.
const SIGNED_COST: f64 = 0.05;
// What one of a class without a sign costs, beside its text.
const KINK_COST: f64 = 1.0;
/// More than any scaled liability.
pub const VERY_MUCH: f64 = 1e9;
// A multiplier of a class with a sign is at most 2 to this power in units: no limit, and a float has
// it as it is.
const ENDLESS_BITS: u32 = 120;
// The bytes of a class that stands with its whole kink, about.
const FULL_BYTES: f64 = 4.0;

/// What leaves are closed for: the net in units, its kinks in scaled floats, what a multiplier of
/// each class costs for each 1 of it, the bounds in steps, the scaled liability that short texts may
/// use up, and the liability in units that is enough.
#[derive(Clone, Copy)]
pub struct Closing<'a> {
    pub alloc: Global,
    pub book: &'a Book,
    pub classes: &'a Classes,
    pub net: &'a WholeNet,
    pub kinks: &'a [f64],
    pub costs: &'a [f64],
    pub bounds: &'a [Option<[i128; 9]>],
    pub aim: f64,
    pub enough: i128,
}

// What a leaf is closed by: its columns, its sums in floats and in steps, and what multipliers may
// be.
#[derive(Drop)]
struct Leafing {
    columns: Vec<Column>,
    levers: Vec<Lever>,
    near: [f64; 9],
    sums: [i128; 9],
}

// The steps of a class.
fn class_steps(class: &Class) -> [i128; 9] {
    let mut steps = [0i128; 9];
    for (place, entry) in class.entries.iter().enumerate() {
        set_whole(
            &mut steps,
            place,
            i128::from(*entry).saturating_mul(steps_in_one()),
        );
    }
    steps
}

// Adds a mixture to steps. None where that does not fit.
fn add_mixes(classes: &Classes, steps: &mut [i128; 9], mixes: &[Mix]) -> Option<()> {
    for mix in mixes {
        let signed = if mix.sign == 1 {
            mix.steps
        } else {
            0i128.saturating_sub(mix.steps)
        };
        add_units(steps, &class_at(classes, mix.class).entries, signed)?;
    }
    Some(())
}

// Entry by entry the greater.
fn greater(first: &[i128; 9], second: &[i128; 9]) -> [i128; 9] {
    let mut made = *first;
    for (place, number) in second.iter().enumerate() {
        set_whole(&mut made, place, whole_at(first, place).max(*number));
    }
    made
}

// A bound in steps. None where that does not fit.
fn bound_steps(classes: &Classes, bound: &Bound) -> Option<[i128; 9]> {
    let mut first = [0i128; 9];
    add_mixes(classes, &mut first, &bound.plus)?;
    let mut second = class_steps(&class_at(classes, bound.class));
    add_mixes(classes, &mut second, &bound.minus)?;
    Some(greater(&first, &second))
}

/// All bounds in steps; None for those that do not fit. The error is want of memory.
pub fn all_steps(
    alloc: Global,
    classes: &Classes,
    bounds: &[Bound],
) -> Result<Vec<Option<[i128; 9]>>, AllocError> {
    let mut steps = Vec::new(alloc);
    for bound in bounds {
        steps.push(bound_steps(classes, bound))?;
    }
    Ok(steps)
}

/// The kinks in scaled floats. The error is want of memory.
pub fn scaled_kinks(alloc: Global, book: &Book, net: &WholeNet) -> Result<Vec<f64>, AllocError> {
    let unit = scaled_unit(book.scales);
    let mut kinks = Vec::new(alloc);
    for kink in net.kinks.iter() {
        kinks.push(float_of(*kink) / unit)?;
    }
    Ok(kinks)
}

/// What a multiplier of each class costs for each 1 of it, by these scaled kinks. The error is want
/// of memory.
pub fn costs_of(alloc: Global, kinks: &[f64]) -> Result<Vec<f64>, AllocError> {
    let mut costs = Vec::new(alloc);
    for kink in kinks {
        costs.push(if *kink < 0.0 {
            KINK_COST + FULL_BYTES / -*kink
        } else {
            SIGNED_COST
        })?;
    }
    Ok(costs)
}

// Adds a factor times steps to sums. None where that does not fit.
fn add_steps(sums: &mut [i128; 9], factor: i128, steps: &[i128; 9]) -> Option<()> {
    for (place, step) in steps.iter().enumerate() {
        let sum = plus_product(whole_at(sums, place), factor, *step)?;
        set_whole(sums, place, sum);
    }
    Some(())
}

// Entry by entry the number, or 0 where it is below.
fn from_zero_each(steps: &[i128; 9]) -> [i128; 9] {
    greater(&[0; 9], steps)
}

// The steps that bound a class in a leaf. None where they do not fit.
fn steps_for(closing: Closing, leaf: &CellLeaf, place: usize, class: &Class) -> Option<[i128; 9]> {
    match leaf.bound_at(place) {
        Some(bound) => match closing.bounds.get(bound) {
            Some(steps) => *steps,
            None => None,
        },
        None => Some(from_zero_each(&class_steps(class))),
    }
}

// Adds a class to the sums: with its sign, or by its bound. None where that does not fit.
fn add_class(
    closing: Closing,
    leaf: &CellLeaf,
    sums: &mut [i128; 9],
    place: usize,
    class: &Class,
) -> Option<()> {
    let kink = whole_at(&closing.net.kinks, place);
    let sign = sign_at(&leaf.signs, place);
    if sign == 1 {
        add_steps(sums, kink, &class_steps(class))
    } else if sign == 0 && kink > 0 {
        add_steps(sums, kink, &steps_for(closing, leaf, place, class)?)
    } else {
        Some(())
    }
}

// The sums of a leaf before multipliers. None where one does not fit.
fn leaf_sums(closing: Closing, leaf: &CellLeaf) -> Option<[i128; 9]> {
    let mut sums = [0i128; 9];
    add_units_of(&mut sums, &closing.net.slope)?;
    for (place, class) in closing.classes.classes.iter().enumerate() {
        add_class(closing, leaf, &mut sums, place, class)?;
    }
    Some(sums)
}

// Adds units to steps.
fn add_units_of(sums: &mut [i128; 9], units: &[i128; 9]) -> Option<()> {
    add_steps(sums, steps_in_one(), units)
}

// The sums in scaled floats.
fn near_sums(book: &Book, sums: &[i128; 9]) -> [f64; 9] {
    let step = scaled_unit(book.scales) * power(MIX_BITS);
    let mut near = [0.0; 9];
    for (place, sum) in sums.iter().enumerate() {
        let scale = if place == 0 {
            power(book.scales.money)
        } else {
            power(book.scales.weight)
        };
        set_entry(&mut near, place, float_of(*sum) / (step * scale));
    }
    near
}

// What the multiplier of a class may be, and what it adds.
fn lever_of(closing: Closing, cell: Cell, place: usize, class: &Class) -> Lever {
    let sign = sign_at(cell.signs, place);
    let kink = whole_at(&closing.net.kinks, place);
    let most = if sign != 0 {
        two_to(ENDLESS_BITS)
    } else {
        0i128.saturating_sub(kink).max(0)
    };
    let factor = if sign == 1 {
        steps_in_one()
    } else {
        0i128.saturating_sub(steps_in_one())
    };
    Lever {
        entries: class.entries,
        factor,
        most,
    }
}

fn levers_of(closing: Closing, cell: Cell) -> Result<Vec<Lever>, AllocError> {
    let mut levers = Vec::new(closing.alloc);
    for (place, class) in closing.classes.classes.iter().enumerate() {
        levers.push(lever_of(closing, cell, place, class))?;
    }
    Ok(levers)
}

// What a leaf is closed by. None where a sum does not fit.
fn leafing_of(closing: Closing, leaf: &CellLeaf) -> Result<Option<Leafing>, AllocError> {
    let Some(sums) = leaf_sums(closing, leaf) else {
        return Ok(None);
    };
    let cell = leaf.cell();
    Ok(Some(Leafing {
        columns: columns_of(closing.alloc, closing.classes, cell, closing.kinks)?,
        levers: levers_of(closing, cell)?,
        near: near_sums(closing.book, &sums),
        sums,
    }))
}

impl Leafing {
    // What its programs are solved for, with slopes so far below 0.
    fn entries(&self, closing: Closing, below: f64) -> EntrySums {
        EntrySums {
            sums: self.near,
            underlyings: closing.book.underlyings,
            below,
        }
    }

    // The whole units of a multiplier, a multiple of the grid or the most that it may be.
    fn units_of(&self, closing: Closing, place: usize, value: f64, grid: i128) -> i128 {
        let unit = scaled_unit(closing.book.scales);
        let steps = nearest_whole(value * unit / float_of(grid)).max(0);
        let units = steps.saturating_mul(grid);
        let most = match self.levers.get(place) {
            Some(lever) => lever.most,
            None => 0,
        };
        if float_of(most) / unit - value <= SMALL * 0.015625 {
            most
        } else {
            units.min(most.saturating_sub(most.rem_euclid(grid.max(1))))
        }
    }

    // The leaf closed by these multipliers, brought to the grid. None where a slope stays above 0.
    fn closed_by(
        &self,
        closing: Closing,
        found: &[NearMultiplier],
        grid: i128,
    ) -> Result<Option<WholeSums>, AllocError> {
        let mut multipliers = no_multipliers(closing.alloc, &self.levers)?;
        for multiplier in found {
            let units = self.units_of(closing, multiplier.place, multiplier.value, grid);
            set_whole(&mut multipliers, multiplier.place, units);
        }
        let moves = MENDS.saturating_mul(closing.book.underlyings);
        let levers = self.levers.as_slice();
        Ok(WholeSums::mended(multipliers, self.sums, levers, grid, moves))
    }

    // Tries to close it at the least liability, with slopes so far below 0.
    fn try_exactly(&self, closing: Closing, below: f64) -> Result<Option<WholeSums>, AllocError> {
        let entries = self.entries(closing, below);
        let found = solve_columns(closing.alloc, &self.columns, &entries)?;
        if found.is_ray() {
            return Ok(None);
        }
        self.closed_by(closing, &found.multipliers, 1)
    }

    // Tries to close it within the aim by few multipliers with so many bits after the point.
    fn try_coarse(&self, closing: Closing, bits: u32) -> Result<Option<WholeSums>, AllocError> {
        let grid = two_to(FILL_BITS.saturating_sub(bits));
        let unit = scaled_unit(closing.book.scales);
        // what the rounding of a multiplier moves a sum by, about
        let room = float_of(grid) / unit;
        let entries = self.entries(closing, room);
        let wanted = closing.aim - room;
        let costs = closing.costs;
        let Some(found) = close_columns(closing.alloc, &self.columns, &entries, wanted, costs)?
        else {
            return Ok(None);
        };
        let closed = self.closed_by(closing, &found, grid)?;
        let aim = nearest_whole(closing.aim * unit * power(closing.book.scales.money));
        if needs_at_most(&closed, aim) {
            Ok(closed)
        } else {
            Ok(None)
        }
    }

    // Closes it with the least liability that was found.
    fn close_exactly(&self, closing: Closing) -> Result<Option<WholeSums>, AllocError> {
        let mut best = None;
        for below in BELOW {
            if let Some(closed) = self.try_exactly(closing, below)? {
                keep_lesser(&mut best, closed);
            }
            if needs_at_most(&best, closing.enough) {
                break;
            }
        }
        Ok(best)
    }

    // Closes it: by a short text within the aim, or with the least liability that was found.
    fn close(&self, closing: Closing) -> Result<Option<WholeSums>, AllocError> {
        for bits in COARSE_BITS {
            let coarse = self.try_coarse(closing, bits)?;
            if coarse.is_some() {
                return Ok(coarse);
            }
        }
        self.close_exactly(closing)
    }
}

/// The scaled liability that a leaf needs; very much along a ray, or where a sum does not fit. The
/// error is want of memory.
pub fn near_need(closing: Closing, leaf: &CellLeaf) -> Result<f64, AllocError> {
    let Some(leafing) = leafing_of(closing, leaf)? else {
        return Ok(VERY_MUCH);
    };
    let entries = leafing.entries(closing, 0.0);
    let found = solve_columns(closing.alloc, &leafing.columns, &entries)?;
    Ok(if found.is_ray() {
        VERY_MUCH
    } else {
        found.value
    })
}

/// The liability in units that closes a leaf, and the multipliers of all classes in units. None
/// where none do, or a sum does not fit; the error is want of memory.
pub fn close_leaf(
    closing: Closing,
    leaf: &CellLeaf,
) -> Result<Option<(i128, Vec<i128>)>, AllocError> {
    let Some(leafing) = leafing_of(closing, leaf)? else {
        return Ok(None);
    };
    match leafing.close(closing)? {
        Some(closed) => Ok(Some((need_of(&closed), closed.multipliers))),
        None => Ok(None),
    }
}

// The liability in units that a leaf needs: its first entry, rounded up.
fn need_of(closed: &WholeSums) -> i128 {
    let first = closed.sums[0];
    let whole = first.div_euclid(steps_in_one().max(1));
    if first.rem_euclid(steps_in_one().max(1)) == 0 {
        whole
    } else {
        whole.saturating_add(1)
    }
}

// Keeps what needs the lesser liability.
fn keep_lesser(best: &mut Option<WholeSums>, closed: WholeSums) {
    let is_lesser = match best {
        Some(old) => closed.sums[0] < old.sums[0],
        None => true,
    };
    if is_lesser {
        *best = Some(closed);
    }
}

// Whether it is closed by at most so much liability.
fn needs_at_most(closed: &Option<WholeSums>, liability: i128) -> bool {
    match closed {
        Some(closed) => need_of(closed) <= liability,
        None => false,
    }
}
