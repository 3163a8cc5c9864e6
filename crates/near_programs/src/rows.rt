//! Steps on rows of numbers.

use std::alloc::AllocError;

/// 2 to this power, from 0 on.
pub fn power(exponent: u32) -> f64 {
    let mut value = 1.0;
    for _ in 0..exponent {
        value = value * 2.0;
    }
    value
}

/// The number at a place of a row, and 0 past its end.
pub fn entry(row: &[f64], place: usize) -> f64 {
    match row.get(place) {
        Some(number) => *number,
        None => 0.0,
    }
}

/// Puts a number at a place of a row that has one.
pub fn set_entry(row: &mut [f64], place: usize, number: f64) {
    if let Some(old) = row.get_mut(place) {
        *old = number;
    }
}

/// The number, or 0 where it is below.
pub fn from_zero(number: f64) -> f64 {
    if number < 0.0 { 0.0 } else { number }
}

/// Adds to the number at a place of a row that has one.
pub fn add_entry(row: &mut [f64], place: usize, number: f64) {
    if let Some(old) = row.get_mut(place) {
        *old = *old + number;
    }
}

// Makes all numbers 0.
pub(crate) fn clear(row: &mut [f64]) {
    for number in row.iter_mut() {
        *number = 0.0;
    }
}

// The row times a factor.
pub(crate) fn scale(row: &mut [f64], factor: f64) {
    for number in row.iter_mut() {
        *number = *number * factor;
    }
}

/// A number and the products of two rows, added in order.
pub fn plus_products(start: f64, left: &[f64], right: &[f64]) -> f64 {
    let mut sum = start;
    for (place, number) in left.iter().enumerate() {
        sum = sum + *number * entry(right, place);
    }
    sum
}

/// A number and the squares of so many numbers of a row, added in order.
pub(crate) fn plus_squares(start: f64, row: &[f64], count: usize) -> f64 {
    let mut sum = start;
    for number in row.iter().take(count) {
        sum = sum + *number * *number;
    }
    sum
}

/// Adds a factor times another row to a row.
pub fn add_times(row: &mut [f64], factor: f64, other: &[f64]) {
    for (number, more) in row.iter_mut().zip(other) {
        *number = *number + factor * *more;
    }
}

// Makes the row a copy of another.
pub(crate) fn copy_row(row: &mut Vec<f64>, other: &[f64]) -> Result<(), AllocError> {
    row.clear();
    row.extend_from_slice(other)
}

// Takes the pivot's row out of a row: its entry in the pivot's column goes with it.
pub(crate) fn eliminate(row: &mut [f64], pivot: &[f64], column: usize) {
    let factor = entry(row, column);
    if factor != 0.0 {
        set_entry(row, column, 0.0);
        add_times(row, -factor, pivot);
    }
}

// Turns the signs of a row up to its right side, which becomes the bound less it.
pub(crate) fn flip_row(row: &mut [f64], side: usize, bound: f64) {
    let right = entry(row, side);
    scale(row, -1.0);
    set_entry(row, side, bound - right);
}

// Turns the sign of a column in a row, at whose bound the variable stands from now on.
pub(crate) fn flip_entry(row: &mut [f64], column: usize, side: usize, bound: f64) {
    let number = entry(row, column);
    let right = entry(row, side);
    set_entry(row, column, -number);
    set_entry(row, side, right - number * bound);
}
