//! Programs of nodes: the least liability that closes a leaf, or a ray on which none does.

use crate::master::SMALL;
use crate::rows::{add_entry, add_times, entry};
use crate::steps::{Stuck, Turns};
use crate::table::{Table, variable_at};
use crate::{Book, NearLeg};
use std::alloc::{AllocError, Global};

// What a slope may be above 0 for nothing, so that whole numbers can mend it: 2^-42.
const ROW_SMALL: f64 = 2.2737367544323206e-13;

// The turns of a node's program.
const NODE_TURNS: Turns = Turns {
    small: ROW_SMALL,
    pivot: 5.960464477539063e-8,
    cap: 400,
};
/// The most that a multiplier of a long leg may be, in scaled fills: signs that no state has are
/// told apart by much of both.
pub const TOP: f64 = 1024.0;
/// What is owed along a ray and counts for nothing: 2^-31.
pub const RAY_TOLERANCE: f64 = 4.656612873077393e-10;

/// What a leaf is solved for: the fills, a sign for each leg, whether the signs hold (else they
/// only choose what a long leg pays), and how far below 0 each slope is to be.
#[derive(Clone, Copy)]
pub struct Question<'a> {
    pub fills: &'a [f64],
    pub signs: &'a [i8],
    pub holds: bool,
    pub below: f64,
}

/// The multiplier of what stands at a place: of a leg.
#[derive(Clone, Copy)]
pub struct NearMultiplier {
    pub place: usize,
    pub value: f64,
}

/// The answer: the liability wanted at a point, or a ray with what is owed along it; with the
/// multipliers of what has a column, and what the program cost.
#[derive(Drop)]
pub struct Found {
    pub value: f64,
    pub point: [f64; 9],
    pub multipliers: Vec<NearMultiplier>,
    pub work: u64,
}

impl Found {
    /// Whether it is a ray.
    pub fn is_ray(&self) -> bool {
        self.point[0] == 0.0
    }
}

/// A column: the place of what it multiplies, the factor of its form, and its bound.
#[derive(Clone, Copy)]
pub struct Column {
    pub place: usize,
    pub factor: f64,
    pub form: [f64; 9],
    pub bound: f64,
}

/// What the columns are to bring to 0 or below: the sums of the entries before multipliers, of
/// which so many are slopes, and how far below 0 each slope is to be.
#[derive(Clone, Copy)]
pub struct EntrySums {
    pub sums: [f64; 9],
    pub underlyings: usize,
    pub below: f64,
}

/// The sign of a leg.
pub fn sign_at(signs: &[i8], leg: usize) -> i8 {
    match signs.get(leg) {
        Some(sign) => *sign,
        None => 0,
    }
}

// The scaled fill of a leg.
fn fill_of(leg: &NearLeg, fills: &[f64]) -> f64 {
    entry(fills, leg.order) * leg.size
}

// Adds what a long leg counts for to the sums of the entries.
fn add_long(sums: &mut [f64; 9], form: &[f64; 9], fill: f64, sign: i8) {
    for (place, number) in form.iter().enumerate() {
        if sign == 1 || *number > 0.0 {
            add_entry(sums, place, fill * *number);
        }
    }
}

// The sums of the entries before multipliers.
fn long_sums(book: &Book, fills: &[f64], signs: &[i8]) -> [f64; 9] {
    let mut sums = [0.0; 9];
    for (i, leg) in book.legs.iter().enumerate() {
        let sign = sign_at(signs, i);
        let fill = fill_of(leg, fills);
        if leg.is_long && sign >= 0 && fill > 0.0 {
            add_long(&mut sums, &leg.form, fill, sign);
        }
    }
    sums
}

// The column of a leg, where it has one.
fn column_of(i: usize, leg: &NearLeg, question: Question) -> Option<Column> {
    let sign = sign_at(question.signs, i);
    let fill = fill_of(leg, question.fills);
    if leg.is_long {
        if !question.holds || sign == 0 {
            return None;
        }
        let factor = if sign == 1 { 1.0 } else { -1.0 };
        return Some(Column {
            place: i,
            factor,
            form: leg.form,
            bound: TOP,
        });
    }
    if fill <= 0.0 {
        return None;
    }
    Some(Column {
        place: i,
        factor: -1.0,
        form: leg.form,
        bound: fill,
    })
}

fn columns_of(alloc: Global, book: &Book, question: Question) -> Result<Vec<Column>, AllocError> {
    let mut columns = Vec::new(alloc);
    for (i, leg) in book.legs.iter().enumerate() {
        if let Some(column) = column_of(i, leg, question) {
            columns.push(column)?;
        }
    }
    Ok(columns)
}

// A table of the columns, whose row 0 is to be set.
fn first_table(alloc: Global, columns: &[Column]) -> Result<Table, AllocError> {
    let mut table = Table::new(alloc, columns.len(), 1)?;
    for (j, column) in columns.iter().enumerate() {
        table.set_upper(j, column.bound);
    }
    Ok(table)
}

// Row 0 asks for the least first entry.
fn ask_least_entry(table: &mut Table, columns: &[Column], sum: f64) {
    for (j, column) in columns.iter().enumerate() {
        table.set(0, j, column.factor * column.form[0]);
    }
    table.set(0, table.width(), -sum);
}

// Row 0 asks for the least cost.
fn ask_least_cost(table: &mut Table, columns: &[Column], costs: &[f64]) {
    for (j, column) in columns.iter().enumerate() {
        table.set(0, j, entry(costs, column.place));
    }
}

// The row of an entry: its sum is at most 0.
fn add_entry_row(
    table: &mut Table,
    columns: &[Column],
    sum: f64,
    place: usize,
) -> Result<(), AllocError> {
    let mut row = Vec::new(table.allocator());
    for column in columns {
        row.push(column.factor * entry(&column.form, place))?;
    }
    row.push(-sum)?;
    let _ = table.add_row(row)?;
    Ok(())
}

// The prices of the slopes in a row, behind a first entry.
fn prices_in(table: &Table, row: usize, first: f64) -> [f64; 9] {
    let mut point = [0.0; 9];
    add_entry(&mut point, 0, first);
    for (j, variable) in table.other().iter().enumerate() {
        add_price(&mut point, table.width(), *variable, table.at(row, j));
    }
    point
}

// Writes the price of a slope, which is the entry at its slack: the variables from `slacks` on.
fn add_price(point: &mut [f64; 9], slacks: usize, variable: usize, price: f64) {
    if variable >= slacks && price > 0.0 {
        add_entry(
            point,
            variable.saturating_sub(slacks).saturating_add(1),
            price,
        );
    }
}

// A ray, and what is owed along it at least.
#[derive(Clone, Copy)]
struct Ray {
    point: [f64; 9],
    owed: f64,
}

// The ray on which a row that does not fit says that something is owed.
fn ray_of(table: &Table, stuck: Stuck) -> Ray {
    let mut point = prices_in(table, stuck.row, 0.0);
    let variable = variable_at(table.basic(), stuck.row);
    add_price(&mut point, table.width(), variable, 1.0);
    let mut sum = 0.0;
    for price in point.iter() {
        sum = sum + *price;
    }
    divided_ray(&point, sum, -stuck.most)
}

// The ray with prices whose sum is 1.
fn divided_ray(point: &[f64; 9], sum: f64, owed: f64) -> Ray {
    if sum <= 0.0 {
        return Ray {
            point: *point,
            owed: 0.0,
        };
    }
    let mut ray = [0.0; 9];
    add_times(&mut ray, 1.0 / sum, point);
    Ray {
        point: ray,
        owed: owed / sum,
    }
}

// Brings the slopes to 0 or below at least cost. Answers a ray along which something is owed, where
// they cannot be; what is owed within the tolerance is forgiven.
fn settle(table: &mut Table) -> Result<Option<Ray>, AllocError> {
    table.flip_where_below(0);
    for _ in 0..table.rows().len() {
        let Some(stuck) = table.dual(0, NODE_TURNS)? else {
            break;
        };
        let ray = ray_of(table, stuck);
        if ray.owed > RAY_TOLERANCE {
            return Ok(Some(ray));
        }
        let right = table.at(stuck.row, table.width()) - stuck.most;
        table.set(stuck.row, table.width(), right);
    }
    Ok(None)
}

// The multipliers of the columns that are above 0.
fn read_multipliers(table: &Table, columns: &[Column]) -> Result<Vec<NearMultiplier>, AllocError> {
    let mut multipliers = Vec::new(table.allocator());
    for (j, column) in columns.iter().enumerate() {
        let value = table.value_of(j);
        if value > 0.0 {
            let place = column.place;
            multipliers.push(NearMultiplier { place, value })?;
        }
    }
    Ok(multipliers)
}

// The rows of the slopes.
fn add_slopes(
    table: &mut Table,
    columns: &[Column],
    entries: &EntrySums,
) -> Result<(), AllocError> {
    for underlying in 0..entries.underlyings {
        let place = underlying.saturating_add(1);
        let sum = entry(&entries.sums, place) + entries.below;
        add_entry_row(table, columns, sum, place)?;
    }
    Ok(())
}

// The sums of a node before multipliers.
fn entries_of(book: &Book, question: Question) -> EntrySums {
    EntrySums {
        sums: long_sums(book, question.fills, question.signs),
        underlyings: book.underlyings,
        below: question.below,
    }
}

// The node's table.
fn table_of(alloc: Global, columns: &[Column], entries: &EntrySums) -> Result<Table, AllocError> {
    let mut table = first_table(alloc, columns)?;
    ask_least_entry(&mut table, columns, entries.sums[0]);
    add_slopes(&mut table, columns, entries)?;
    Ok(table)
}

// The table of the multipliers of least cost.
fn closing_table(
    alloc: Global,
    columns: &[Column],
    entries: &EntrySums,
    enough: f64,
    costs: &[f64],
) -> Result<Table, AllocError> {
    let mut table = first_table(alloc, columns)?;
    ask_least_cost(&mut table, columns, costs);
    add_slopes(&mut table, columns, entries)?;
    add_entry_row(&mut table, columns, entries.sums[0] - enough, 0)?;
    Ok(table)
}

// What a node's program comes to.
fn found_in(table: &mut Table, columns: &[Column]) -> Result<Found, AllocError> {
    if let Some(ray) = settle(table)? {
        return Ok(Found {
            value: ray.owed,
            point: ray.point,
            multipliers: Vec::new(table.allocator()),
            work: table.work(),
        });
    }
    Ok(Found {
        value: -table.at(0, table.width()),
        point: prices_in(table, 0, 1.0),
        multipliers: read_multipliers(table, columns)?,
        work: table.work(),
    })
}

/// The least first entry that multipliers of columns leave with no slope above 0, by at most 400
/// turns. The error is want of memory.
pub fn solve_columns(
    alloc: Global,
    columns: &[Column],
    entries: &EntrySums,
) -> Result<Found, AllocError> {
    let mut table = table_of(alloc, columns, entries)?;
    found_in(&mut table, columns)
}

/// Solves the program of a node by at most 400 turns. The error is want of memory.
pub fn solve_node(alloc: Global, book: &Book, question: Question) -> Result<Found, AllocError> {
    let columns = columns_of(alloc, book, question)?;
    solve_columns(alloc, &columns, &entries_of(book, question))
}

/// The multipliers of least cost that leave no slope above 0 and the first entry at most at
/// `enough`, each at the cost at its column's place for each 1 of it; None where none do. At most
/// 400 turns. The error is want of memory.
pub fn close_columns(
    alloc: Global,
    columns: &[Column],
    entries: &EntrySums,
    enough: f64,
    costs: &[f64],
) -> Result<Option<Vec<NearMultiplier>>, AllocError> {
    let mut table = closing_table(alloc, columns, entries, enough, costs)?;
    if settle(&mut table)?.is_some() {
        return Ok(None);
    }
    Ok(Some(read_multipliers(&table, columns)?))
}
