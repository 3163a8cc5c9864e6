//! The columns that may enter for a row of a table.

use crate::rows::{entry, from_zero};
use crate::steps::Turns;
use crate::table::{UNBOUNDED, bound_at, variable_at};
use std::alloc::AllocError;

/// A column that may enter: the size of its entry in the row, its cost from 0 on, the most that both
/// are apart in ratio, and by how much the row's right side rises where the column's variable goes to
/// its bound.
#[derive(Clone, Copy)]
pub(crate) struct Entrant {
    pub column: usize,
    size: f64,
    cost: f64,
    ratio: f64,
    pub room: f64,
}

// The column with this entry, where it may enter.
fn entrant_of(column: usize, number: f64, cost: f64, bound: f64, turns: Turns) -> Option<Entrant> {
    let size = -number;
    if size > turns.pivot {
        let cost = from_zero(cost);
        let ratio = (cost + turns.small) / size;
        let room = size * bound;
        Some(Entrant {
            column,
            size,
            cost,
            ratio,
            room,
        })
    } else {
        None
    }
}

/// Lists the columns that may enter for a row, by what they cost. Answers by how much they can raise
/// its right side together.
pub(crate) fn list_entrants(
    list: &mut Vec<Entrant>,
    numbers: &[f64],
    costs: &[f64],
    others: &[usize],
    upper: &[f64],
    turns: Turns,
) -> Result<f64, AllocError> {
    list.clear();
    let mut room = 0.0;
    for (column, number) in numbers.iter().take(others.len()).enumerate() {
        let cost = entry(costs, column);
        let bound = bound_at(upper, variable_at(others, column));
        if let Some(entrant) = entrant_of(column, *number, cost, bound, turns) {
            room = room + entrant.room;
            list.push(entrant)?;
        }
    }
    Ok(room)
}

// The least ratio.
fn least_ratio(list: &[Entrant]) -> f64 {
    let mut least = UNBOUNDED;
    for entrant in list {
        least = least.min(entrant.ratio);
    }
    least
}

// The place of the largest entry among those whose ratio is at most the least.
fn largest_within(list: &[Entrant], least: f64) -> Option<usize> {
    let mut size = 0.0;
    let mut place = None;
    for (i, entrant) in list.iter().enumerate() {
        if entrant.size > size && entrant.cost <= least * entrant.size {
            size = entrant.size;
            place = Some(i);
        }
    }
    place
}

/// The column that enters first, which is taken from the list.
pub(crate) fn take_first(list: &mut Vec<Entrant>) -> Option<Entrant> {
    let place = largest_within(list, least_ratio(list))?;
    if place < list.len() {
        Some(list.swap_remove(place))
    } else {
        None
    }
}
