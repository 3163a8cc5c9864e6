//! The master program: fills and a liability that cover the states found so far.

use crate::numbers::float_of;
use crate::points::{NearState, net_at, payoff, payoff_unit, point_of};
use crate::rows::{add_entry, add_times, entry, from_zero, plus_products, set_entry};
use crate::steps::Turns;
use crate::table::{Table, variable_at};
use crate::{Book, NearLeg, NearOrder};
use std::alloc::{AllocError, Global};

/// What the programs take for nothing: 2^-33.
pub const SMALL: f64 = 1.1641532182693481e-10;

// What the master program takes for no pivot: 2^-24.
const PIVOT: f64 = 5.960464477539063e-8;
// 1 + 2^-26: bought payoffs count so much on rays, so that fills can be rounded.
const RAY_FACTOR: f64 = 1.0000000149011612;
// Fewer units of an order than 2^-40 are nothing; 2^-28 where less of it is less to cover.
const DUST: f64 = 9.094947017729282e-13;

const LONG_DUST: f64 = 3.725290298461914e-9;
// Rows whose slack is at least so much of the surplus leave where there are too many.
const FAR: f64 = 0.25;

const MASTER_TURNS: Turns = Turns {
    small: SMALL,
    pivot: PIVOT,
    cap: 20_000,
};

// A state that was found, and whether it still has its row.
#[derive(Clone, Copy)]
struct KnownState {
    state: NearState,
    has_row: bool,
}

/// The master program over the states found so far, in the order in which they were found, and its
/// fills, one for each order, and its liability, in scaled floats.
#[derive(Drop)]
pub struct Master {
    alloc: Global,
    ray_factor: f64,
    pub table: Table,
    states: Vec<KnownState>,
    pub fills: Vec<f64>,
    pub liability: f64,
    // what the market owes for each order at prices of 0
    base: Vec<f64>,
    values: Vec<f64>,
    // what tables cost that were made anew since
    old_work: u64,
}

// What a leg adds to its order's coefficient at a payoff.
fn signed(leg: &NearLeg, pays: f64) -> f64 {
    if leg.is_long {
        pays * leg.size
    } else {
        -(pays * leg.size)
    }
}

// What the market owes for each order at prices of 0.
fn base_of(book: &Book, alloc: Global) -> Result<Vec<f64>, AllocError> {
    let mut base = book.zeros(alloc)?;
    for leg in book.legs.iter() {
        add_entry(&mut base, leg.order, signed(leg, from_zero(leg.form[0])));
    }
    Ok(base)
}

// The table without states: each fill at the bound that its cost asks for.
fn start(book: &Book, alloc: Global, base: &[f64]) -> Result<Table, AllocError> {
    let count = book.orders.len();
    let mut table = Table::new(alloc, count.saturating_add(1), 1)?;
    for (i, order) in book.orders.iter().enumerate() {
        let gain = (order.scaled_limit - entry(base, i)) * order.unit;
        set_order(&mut table, i, gain, order.most / order.unit);
    }
    table.set(0, count, 1.0);
    Ok(table)
}

// A value of 0 for each order and for the liability.
fn zero_values(book: &Book, alloc: Global) -> Result<Vec<f64>, AllocError> {
    let mut values = book.zeros(alloc)?;
    values.push(0.0)?;
    Ok(values)
}

// Puts the fill of an order, which gains so much for each unit, into the table.
fn set_order(table: &mut Table, column: usize, gain: f64, most: f64) {
    table.set(0, column, -gain);
    table.set_upper(column, most);
    if gain > 0.0 {
        table.flip_other(column);
    }
}

// Takes each number times the unit of its order.
fn scale_by_units(numbers: &mut [f64], orders: &[NearOrder]) {
    for (i, order) in orders.iter().enumerate() {
        let number = entry(numbers, i) * order.unit;
        set_entry(numbers, i, number);
    }
}

// The fill of so many units.
fn fill_of_units(units: f64, order: &NearOrder) -> f64 {
    let dust = if order.has_long { LONG_DUST } else { DUST };
    if units < dust {
        0.0
    } else {
        (units * order.unit).min(order.most)
    }
}

// Writes the fills of so many units each.
fn set_fills(fills: &mut [f64], units: &[f64], orders: &[NearOrder]) {
    for (i, order) in orders.iter().enumerate() {
        set_entry(fills, i, fill_of_units(entry(units, i), order));
    }
}

impl Master {
    /// The master program without states. The error is want of memory.
    pub fn new(alloc: Global, book: &Book) -> Result<Master, AllocError> {
        let base = base_of(book, alloc)?;
        let fills = book.zeros(alloc)?;
        let values = zero_values(book, alloc)?;
        let table = start(book, alloc, &base)?;
        Ok(Master {
            alloc,
            ray_factor: RAY_FACTOR,
            table,
            states: Vec::new(alloc),
            fills,
            liability: 0.0,
            base,
            values,
            old_work: 0,
        })
    }

    // What the market owes for each order at a state.
    fn owed_at(&self, book: &Book, state: &NearState) -> Result<Vec<f64>, AllocError> {
        let mut owed = book.zeros(self.alloc)?;
        let unit = payoff_unit(book.scales, state.is_ray());
        for leg in book.legs.iter() {
            let pays = float_of(payoff(&leg.entries, state)) * unit;
            let counts = if leg.is_long && state.is_ray() {
                pays * self.ray_factor
            } else {
                pays
            };
            add_entry(&mut owed, leg.order, signed(leg, counts));
        }
        Ok(owed)
    }

    // Turns what is owed into the coefficients of a row.
    fn make_coefficients(
        &self,
        book: &Book,
        owed: &mut Vec<f64>,
        is_ray: bool,
    ) -> Result<(), AllocError> {
        if !is_ray {
            add_times(owed, -1.0, &self.base);
        }
        scale_by_units(owed, &book.orders);
        owed.push(if is_ray { 0.0 } else { -1.0 })?;
        Ok(())
    }

    /// Whether the state has a row.
    pub fn has_state(&self, state: &NearState) -> bool {
        for known in self.states.iter() {
            if known.has_row && known.state == *state {
                return true;
            }
        }
        false
    }

    /// Adds the row of a state. Answers whether it had none. The error is want of memory.
    pub fn add_state(&mut self, book: &Book, state: NearState) -> Result<bool, AllocError> {
        if self.has_state(&state) {
            return Ok(false);
        }
        let mut owed = self.owed_at(book, &state)?;
        self.make_coefficients(book, &mut owed, state.is_ray())?;
        let _ = self.table.add_sum(&owed)?;
        let has_row = true;
        self.states.push(KnownState { state, has_row })?;
        Ok(true)
    }

    // The states that have a row.
    fn live_states(&self) -> Result<Vec<NearState>, AllocError> {
        let mut states = Vec::new(self.alloc);
        for known in self.states.iter() {
            if known.has_row {
                states.push(known.state)?;
            }
        }
        Ok(states)
    }

    // Adds the rows of states.
    fn add_states(&mut self, book: &Book, states: &[NearState]) -> Result<(), AllocError> {
        for state in states {
            let _ = self.add_state(book, *state)?;
        }
        Ok(())
    }

    /// The program of a book with the same orders at other limits over the same states, not solved
    /// yet. The error is want of memory.
    pub fn for_book(&self, book: &Book) -> Result<Master, AllocError> {
        let states = self.live_states()?;
        let mut master = Master::new(self.alloc, book)?;
        master.add_states(book, &states)?;
        Ok(master)
    }

    /// Bounds the fills as a book does with the same orders at the same limits. What was solved stays
    /// near.
    pub fn bound_fills(&mut self, book: &Book) {
        for (i, order) in book.orders.iter().enumerate() {
            self.table.change_upper(i, order.most / order.unit);
        }
    }

    /// The program over the same states with rays as they are, solved: its prices bound more
    /// closely, but its fills leave no room to be rounded. The error is want of memory.
    pub fn for_prices(&self, book: &Book) -> Result<Master, AllocError> {
        let states = self.live_states()?;
        let mut master = Master::new(self.alloc, book)?;
        master.ray_factor = 1.0;
        master.add_states(book, &states)?;
        master.solve(book)?;
        Ok(master)
    }

    /// What it cost so far.
    pub fn work(&self) -> u64 {
        self.old_work.saturating_add(self.table.work())
    }

    // The table made anew from its states, where rounding has moved it.
    fn rebuild(&mut self, book: &Book) -> Result<(), AllocError> {
        let states = self.live_states()?;
        self.old_work = self.work();
        self.table = start(book, self.alloc, &self.base)?;
        self.states.clear();
        self.add_states(book, &states)
    }

    // The excess of the fills at a state that has a row, and 0 at a ray.
    fn excess_at(&self, book: &Book, state: &NearState) -> f64 {
        if state.is_ray() {
            return 0.0;
        }
        let point = point_of(state, book.scales);
        net_at(book, &self.fills, self.liability, &point)
    }

    // The greatest excess of the fills at a state that has a row.
    fn drift(&self, book: &Book) -> f64 {
        let mut most = 0.0;
        for known in self.states.iter() {
            if known.has_row {
                most = self.excess_at(book, &known.state).max(most);
            }
        }
        most
    }

    // The fill of an order and the liability, from the values of the table.
    fn read_fills(&mut self, book: &Book) {
        self.table.read_values(&mut self.values);
        set_fills(&mut self.fills, &self.values, &book.orders);
        let above = from_zero(entry(&self.values, book.orders.len()));
        self.liability = plus_products(above, &self.fills, &self.base);
    }

    fn mark_gone(&mut self, variable: usize, orders: usize) {
        let place = variable.saturating_sub(orders).saturating_sub(1);
        if let Some(known) = self.states.get_mut(place) {
            known.has_row = false;
        }
    }

    // Takes rows of states far from tight out, where there are many.
    fn drop_far(&mut self, book: &Book) {
        let orders = book.orders.len();
        let rows = self.table.rows().len();
        if rows <= orders.saturating_mul(3).saturating_add(60) {
            return;
        }
        let far = from_zero(self.surplus(book)) * FAR + SMALL;
        for row in (1..rows).rev() {
            self.drop_where_far(row, orders, far);
        }
    }

    // Takes the row out where it is that of a state far from tight.
    fn drop_where_far(&mut self, row: usize, orders: usize, far: f64) {
        let variable = variable_at(self.table.basic(), row);
        if variable > orders && self.table.at(row, self.table.width()) >= far {
            self.table.remove_row(row);
            self.mark_gone(variable, orders);
        }
    }

    fn solve_once(&mut self, book: &Book) -> Result<(), AllocError> {
        let _ = self.table.dual(0, MASTER_TURNS)?;
        self.read_fills(book);
        self.drop_far(book);
        Ok(())
    }

    /// Solves the program by at most 20,000 turns, and reads fills and liability off. The error is
    /// want of memory.
    pub fn solve(&mut self, book: &Book) -> Result<(), AllocError> {
        self.solve_once(book)?;
        if self.drift(book) > SMALL * 256.0 {
            self.rebuild(book)?;
            self.solve_once(book)?;
        }
        Ok(())
    }

    /// The scaled surplus.
    pub fn surplus(&self, book: &Book) -> f64 {
        let mut surplus = -self.liability;
        for (i, order) in book.orders.iter().enumerate() {
            surplus = surplus + entry(&self.fills, i) * order.scaled_limit;
        }
        surplus
    }

    /// The settlements that are tight, as points. The error is want of memory.
    pub fn tight_points(&self, alloc: Global, book: &Book) -> Result<Vec<[f64; 9]>, AllocError> {
        let mut points = Vec::new(alloc);
        for (column, variable) in self.table.other().iter().enumerate() {
            if self.table.at(0, column) > 0.0 {
                if let Some(state) = self.settlement_of(*variable) {
                    points.push(point_of(&state, book.scales))?;
                }
            }
        }
        Ok(points)
    }

    /// The state whose slack a variable is.
    pub fn state_of_slack(&self, variable: usize) -> Option<NearState> {
        let place = variable.checked_sub(self.fills.len())?.checked_sub(1)?;
        let known = self.states.get(place)?;
        Some(known.state)
    }

    // The settlement whose slack a variable is.
    fn settlement_of(&self, variable: usize) -> Option<NearState> {
        let state = self.state_of_slack(variable)?;
        if state.is_ray() { None } else { Some(state) }
    }
}
