//! Chords: the least that bounds a class at a state, by the classes that have a sign.
//!
//! The program raises what the class comes to at a part p of the state z, where `0 <= p <= z` and
//! for each signed class `0 <= sign * form . p <= sign * form . z`. The prices of its rows are the
//! multipliers of the bound.

use crate::bounds::{Bound, Mix, class_at, signed_one, steps_of};
use crate::classes::{Classes, value_at};
use near_programs::node::sign_at;
use near_programs::{SMALL, Table, Turns, from_zero, variable_at};
use std::alloc::{AllocError, Global};

// The turns of a chord's program.
const CHORD_TURNS: Turns = Turns {
    small: SMALL,
    pivot: 5.960464477539063e-8,
    cap: 300,
};

/// The cell of a leaf: a sign for each class, 1, -1 or 0, and the classes that have one, in the
/// order in which they got it.
#[derive(Clone, Copy)]
pub struct Cell<'a> {
    pub signs: &'a [i8],
    pub signed: &'a [usize],
}

/// A bound, and what its program cost.
#[derive(Drop)]
pub struct Chord {
    pub bound: Bound,
    pub work: u64,
}

// The table of a chord before its rows.
fn first_table(
    alloc: Global,
    form: &[f64; 9],
    point: &[f64; 9],
    entries: usize,
) -> Result<Table, AllocError> {
    let mut table = Table::new(alloc, entries, 1)?;
    for (place, number) in form.iter().take(entries).enumerate() {
        table.set(0, place, -*number);
    }
    for (place, price) in point.iter().take(entries).enumerate() {
        table.set_upper(place, *price);
    }
    Ok(table)
}

// The row of a signed class, whose form with its sign is at most what it is at the state.
fn add_class(
    table: &mut Table,
    form: &[f64; 9],
    factor: f64,
    point: &[f64; 9],
    entries: usize,
) -> Result<(), AllocError> {
    let mut row = Vec::new(table.allocator());
    for number in form.iter().take(entries) {
        row.push(-(factor * *number))?;
    }
    row.push(0.0)?;
    let slack = table.add_row(row)?;
    table.set_upper(slack, from_zero(factor * value_at(form, point)));
    Ok(())
}

// The rows of all signed classes.
fn add_classes(
    table: &mut Table,
    classes: &Classes,
    cell: Cell,
    point: &[f64; 9],
    entries: usize,
) -> Result<(), AllocError> {
    for place in cell.signed {
        let factor = signed_one(sign_at(cell.signs, *place));
        let form = class_at(classes, *place).form;
        add_class(table, &form, factor, point, entries)?;
    }
    Ok(())
}

// The multiplier of the row whose slack stands in a column, where it has one.
fn mix_in(table: &Table, cell: Cell, column: usize, entries: usize, is_plus: bool) -> Option<Mix> {
    let variable = variable_at(table.other(), column);
    let row = variable.checked_sub(entries)?;
    let class = *cell.signed.get(row)?;
    let steps = steps_of(table.at(0, column));
    if steps <= 0 || table.is_flipped(variable) != is_plus {
        return None;
    }
    Some(Mix {
        class,
        sign: sign_at(cell.signs, class),
        steps,
    })
}

// The multipliers of rows at their upper ends, or at 0.
fn mixes_in(
    table: &Table,
    cell: Cell,
    entries: usize,
    is_plus: bool,
) -> Result<Vec<Mix>, AllocError> {
    let mut mixes = Vec::new(table.allocator());
    for column in 0..table.width() {
        if let Some(mix) = mix_in(table, cell, column, entries, is_plus) {
            mixes.push(mix)?;
        }
    }
    Ok(mixes)
}

/// The least bound of a class at a state, with so many entries, over the cell. The error is want of
/// memory.
pub fn least_bound(
    alloc: Global,
    classes: &Classes,
    cell: Cell,
    class: usize,
    point: &[f64; 9],
    entries: usize,
) -> Result<Chord, AllocError> {
    let form = class_at(classes, class).form;
    let mut table = first_table(alloc, &form, point, entries)?;
    add_classes(&mut table, classes, cell, point, entries)?;
    table.flip_where_below(0);
    let _ = table.dual(0, CHORD_TURNS)?;
    let plus = mixes_in(&table, cell, entries, true)?;
    let minus = mixes_in(&table, cell, entries, false)?;
    Ok(Chord {
        bound: Bound::new(classes, class, plus, minus),
        work: table.work(),
    })
}
