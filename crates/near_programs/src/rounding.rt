//! Whole multiples of powers of two: the measure and its bound, the fills.

use crate::book::{Book, NearLeg, NearOrder, Scales};
use crate::master::Master;
use crate::numbers::{add_whole, nearest_whole, plus_product, set_whole, two_to, whole_at};
use crate::points::{NearState, RAY_BITS, payoff, zero_prices};
use crate::rows::{entry, power};
use std::alloc::{AllocError, Global};

/// Fills, liability and multipliers are whole multiples of 2^-40.
pub const FILL_BITS: u32 = 40;
/// Weights are whole multiples of 2^-(40 + time).
pub const WEIGHT_BITS: u32 = 40;
// Fills within 2^-30 of the quantity are the quantity.
const NEAR_TOP: i128 = 1024;

/// A state and its weight in units of 2^-(40 + time).
#[derive(Clone, Copy)]
pub struct WholePoint {
    pub state: NearState,
    pub weight: i128,
}

/// A measure, and its bound in units of 2^-(40 + time).
#[derive(Drop)]
pub struct WholeMeasure {
    pub points: Vec<WholePoint>,
    pub bound: i128,
}

/// The units of 1 of a scaled fill.
pub fn scaled_unit(scales: Scales) -> f64 {
    power(FILL_BITS) * power(scales.fill)
}

// The weight of a state, from its price in the table.
fn weight_of(scales: Scales, is_ray: bool, price: f64) -> i128 {
    let factor = if is_ray {
        power(WEIGHT_BITS) * power(scales.time) * power(scales.money)
            / (power(RAY_BITS) * power(scales.weight))
    } else {
        power(WEIGHT_BITS)
    };
    nearest_whole(price * factor).max(0)
}

impl WholeMeasure {
    // Adds the state of a column of the table, with its price.
    fn add_column(
        &mut self,
        book: &Book,
        master: &Master,
        variable: usize,
        price: f64,
    ) -> Result<(), AllocError> {
        if price <= 0.0 {
            return Ok(());
        }
        let state = match master.state_of_slack(variable) {
            Some(state) => state,
            None if variable == book.orders.len() => zero_prices(book.scales),
            None => return Ok(()),
        };
        let weight = weight_of(book.scales, state.is_ray(), price);
        self.points.push(WholePoint { state, weight })?;
        Ok(())
    }

    // The place of the heaviest settlement.
    fn heaviest(&self) -> usize {
        let mut heaviest = 0;
        let mut most = 0i128;
        for (i, point) in self.points.iter().enumerate() {
            if !point.state.is_ray() && point.weight > most {
                most = point.weight;
                heaviest = i;
            }
        }
        heaviest
    }

    // Makes the sum of weight times first entry 1: the heaviest settlement takes what the others
    // leave.
    fn fill_mass(&mut self) {
        let heaviest = self.heaviest();
        let _ = self.set_weight(heaviest, 0);
        let left = cap_masses(&mut self.points, two_to(WEIGHT_BITS));
        let _ = self.set_weight(heaviest, left);
    }

    fn set_weight(&mut self, place: usize, weight: i128) -> Option<()> {
        self.points.get_mut(place)?.weight = weight;
        Some(())
    }
}

// Lowers the weights of settlements to what those before leave of a mass. Answers what they all
// leave.
fn cap_masses(points: &mut [WholePoint], mass: i128) -> i128 {
    let mut left = mass;
    for point in points.iter_mut() {
        if !point.state.is_ray() {
            point.weight = point.weight.min(left);
            left = left.saturating_sub(point.weight);
        }
    }
    left
}

/// The measure that the master program's prices are, with weights whose mass is 1 exactly.
pub fn measure_of(alloc: Global, book: &Book, master: &Master) -> Result<WholeMeasure, AllocError> {
    let state = zero_prices(book.scales);
    let mut measure = WholeMeasure {
        points: vec![in alloc; WholePoint { state, weight: 0 }]?,
        bound: 0,
    };
    for (column, variable) in master.table.other().iter().enumerate() {
        let price = master.table.at(0, column);
        measure.add_column(book, master, *variable, price)?;
    }
    measure.fill_mass();
    measure.bound = bound_of(alloc, book, &measure)?;
    Ok(measure)
}

// The price of a leg.
fn price_of(leg: &NearLeg, measure: &WholeMeasure) -> i128 {
    let mut price = 0i128;
    for point in measure.points.iter() {
        let pays = payoff(&leg.entries, &point.state);
        price = price.saturating_add(pays.saturating_mul(point.weight));
    }
    let counted = price.saturating_mul(leg.count);
    if leg.is_long {
        counted
    } else {
        0i128.saturating_sub(counted)
    }
}

// The prices of the orders' legs together.
fn prices_of(alloc: Global, book: &Book, measure: &WholeMeasure) -> Result<Vec<i128>, AllocError> {
    let mut prices = vec![in alloc; 0i128; book.orders.len()]?;
    for leg in book.legs.iter() {
        add_whole(&mut prices, leg.order, price_of(leg, measure));
    }
    Ok(prices)
}

/// What each order gains at a measure's prices, times its quantity; below 0 where it loses.
pub fn gains_of(
    alloc: Global,
    book: &Book,
    measure: &WholeMeasure,
) -> Result<Vec<i128>, AllocError> {
    let prices = prices_of(alloc, book, measure)?;
    let unit = two_to(WEIGHT_BITS.saturating_add(book.scales.time));
    let mut gains = Vec::new(alloc);
    for (i, order) in book.orders.iter().enumerate() {
        let price = whole_at(&prices, i);
        let gain = order.limit.saturating_mul(unit).saturating_sub(price);
        gains.push(gain.saturating_mul(order.quantity))?;
    }
    Ok(gains)
}

// All states of a measure together, each times its weight.
fn mean_of(measure: &WholeMeasure) -> NearState {
    let mut entries = [0i128; 9];
    for point in measure.points.iter() {
        add_weighted(&mut entries, point);
    }
    NearState { entries }
}

fn add_weighted(entries: &mut [i128; 9], point: &WholePoint) {
    for (place, entry) in point.state.entries.iter().enumerate() {
        add_whole(entries, place, entry.saturating_mul(point.weight));
    }
}

// How much more a leg pays at a measure's prices than at the mean of its states.
fn spread_of(leg: &NearLeg, measure: &WholeMeasure, mean: &NearState) -> i128 {
    let price = price_of(leg, measure).saturating_abs();
    let certain = payoff(&leg.entries, mean).saturating_mul(leg.count);
    price.saturating_sub(certain).max(0)
}

/// How much more the legs of each order pay at a measure's prices than at the mean of its states, in
/// units of 2^-(40 + time): what stands on how prices spread, which covers bound least well. The
/// error is want of memory.
pub fn spreads_of(
    alloc: Global,
    book: &Book,
    measure: &WholeMeasure,
) -> Result<Vec<i128>, AllocError> {
    let mean = mean_of(measure);
    let mut spreads = vec![in alloc; 0i128; book.orders.len()]?;
    for leg in book.legs.iter() {
        add_whole(&mut spreads, leg.order, spread_of(leg, measure, &mean));
    }
    Ok(spreads)
}

// The bound of a measure.
fn bound_of(alloc: Global, book: &Book, measure: &WholeMeasure) -> Result<i128, AllocError> {
    let gains = gains_of(alloc, book, measure)?;
    let mut bound = 0i128;
    for gain in gains.iter() {
        bound = bound.saturating_add((*gain).max(0));
    }
    Ok(bound)
}

// A fill in units of 2^-40.
fn rounded(order: &NearOrder, fill: f64, scales: Scales) -> i128 {
    let top = order.quantity.saturating_mul(two_to(FILL_BITS));
    let units = nearest_whole(fill * scaled_unit(scales)).clamp(0, top.max(0));
    if top.saturating_sub(units) < NEAR_TOP {
        top
    } else {
        units
    }
}

/// The fills in units of 2^-40.
pub fn rounded_fills(alloc: Global, book: &Book, fills: &[f64]) -> Result<Vec<i128>, AllocError> {
    let mut units = Vec::new(alloc);
    for (i, order) in book.orders.iter().enumerate() {
        units.push(rounded(order, entry(fills, i), book.scales))?;
    }
    Ok(units)
}

/// The fills with less of the orders that have a long leg: attempt 0 leaves them, 1 takes a part in
/// 2^24 of these away, 2 in 2^16, and so on. The error is want of memory.
pub fn less_fills(
    alloc: Global,
    book: &Book,
    fills: &[i128],
    attempt: u32,
) -> Result<Vec<i128>, AllocError> {
    let mut less = Vec::new(alloc);
    for (i, order) in book.orders.iter().enumerate() {
        less.push(less_fill(whole_at(fills, i), order.has_long, attempt))?;
    }
    Ok(less)
}

fn less_fill(fill: i128, has_long: bool, attempt: u32) -> i128 {
    if !has_long || attempt == 0 {
        return fill;
    }
    let bits = 32u32.saturating_sub(attempt.saturating_mul(8));
    let part = fill.div_euclid(two_to(bits).max(1));
    fill.saturating_sub(part).saturating_sub(1).max(0)
}

/// The sum of limit times fill, where it fits.
pub fn premium(book: &Book, fills: &[i128]) -> Option<i128> {
    let mut total = 0i128;
    for (i, order) in book.orders.iter().enumerate() {
        total = plus_product(total, order.limit, whole_at(fills, i))?;
    }
    Some(total)
}

/// The fill of a leg in units.
pub fn leg_fill(leg: &NearLeg, fills: &[i128]) -> i128 {
    match fills.get(leg.order) {
        Some(fill) => (*fill).saturating_mul(leg.count),
        None => 0,
    }
}
