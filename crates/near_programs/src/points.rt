//! Points: states in whole numbers, and in floats. The first entry of a ray is 0.

use crate::book::{Book, NearLeg, Scales};
use crate::numbers::{float_of, nearest_whole, set_whole, two_to, whole_at};
use crate::rows::{entry, from_zero, plus_products, power, set_entry};

/// The bits of the greatest entry of a ray.
pub const RAY_BITS: u32 = 30;

/// A state in whole numbers: prices times 2^time behind 2^time, or a ray behind 0.
#[derive(Clone, Copy, PartialEq, Eq)]
pub struct NearState {
    pub entries: [i128; 9],
}

impl NearState {
    /// Whether it is a ray.
    pub fn is_ray(&self) -> bool {
        self.entries[0] == 0
    }
}

/// What the option of these entries pays at a state, times the state's first entry.
pub fn payoff(entries: &[i64; 9], state: &NearState) -> i128 {
    let mut total = 0i128;
    for (place, entry) in entries.iter().enumerate() {
        let price = whole_at(&state.entries, place);
        total = total.saturating_add(i128::from(*entry).saturating_mul(price));
    }
    total.max(0)
}

/// The float of 1 of a payoff at a state.
pub fn payoff_unit(scales: Scales, is_ray: bool) -> f64 {
    if is_ray {
        1.0 / (power(RAY_BITS) * power(scales.weight))
    } else {
        1.0 / (power(scales.time) * power(scales.money))
    }
}

/// What 1 of a scaled price is in a state's entries.
pub fn price_unit(scales: Scales) -> f64 {
    power(scales.time) * power(scales.money) / power(scales.weight)
}

// The state whose one entry that is not 0 stands at this place.
fn lone_entry(place: usize, number: i128) -> NearState {
    let mut entries = [0i128; 9];
    set_whole(&mut entries, place, number);
    NearState { entries }
}

/// The ray along which one price grows.
pub fn unit_ray(underlying: usize) -> NearState {
    lone_entry(underlying, two_to(RAY_BITS))
}

/// The state at which all prices are 0.
pub fn zero_prices(scales: Scales) -> NearState {
    lone_entry(0, two_to(scales.time))
}

// The quotient, to the nearest whole number; 0 by 0.
fn nearest_quotient(above: i128, below: i128) -> i128 {
    if below <= 0 {
        return 0;
    }
    let twice = above.saturating_mul(2).saturating_add(below);
    twice.div_euclid(below.saturating_mul(2).max(1))
}

/// The state near the price of one underlying at which an option begins or ends to pay, the others
/// at 0; None where there is no such price.
pub fn bend(leg: &NearLeg, underlying: usize, scales: Scales) -> Option<NearState> {
    let strike = i128::from(leg.entries[0]);
    let weight = i128::from(*leg.entries.get(underlying)?);
    if strike == 0 || weight == 0 || (strike > 0) == (weight > 0) {
        return None;
    }
    let scaled = strike.saturating_abs().saturating_mul(two_to(scales.time));
    let mut state = zero_prices(scales);
    let price = nearest_quotient(scaled, weight.saturating_abs());
    set_whole(&mut state.entries, underlying, price);
    Some(state)
}

/// The state in floats: 1 or 0, and the scaled prices.
pub fn point_of(state: &NearState, scales: Scales) -> [f64; 9] {
    let unit = if state.is_ray() {
        power(RAY_BITS)
    } else {
        price_unit(scales)
    };
    let mut point = [0.0; 9];
    for (place, entry) in state.entries.iter().enumerate() {
        set_entry(&mut point, place, float_of(*entry) / unit);
    }
    point[0] = if state.is_ray() { 0.0 } else { 1.0 };
    point
}

// The greatest of the prices.
fn greatest_price(point: &[f64; 9]) -> f64 {
    let mut greatest = 0.0;
    for (place, price) in point.iter().enumerate() {
        if place > 0 && *price > greatest {
            greatest = *price;
        }
    }
    greatest
}

// What a ray's prices are multiplied by, so that the greatest has so many bits.
fn ray_factor(point: &[f64; 9]) -> f64 {
    let greatest = greatest_price(point);
    if greatest > 0.0 {
        power(RAY_BITS) / greatest
    } else {
        0.0
    }
}

// The whole numbers near the entries of a point times a factor.
fn whole_entries(point: &[f64; 9], factor: f64) -> [i128; 9] {
    let mut entries = [0i128; 9];
    for (place, price) in point.iter().enumerate() {
        let near = nearest_whole(from_zero(*price * factor)).min(CAP_OF_PRICES);
        set_whole(&mut entries, place, near);
    }
    entries
}

/// The state nearest to a point.
pub fn state_of(point: &[f64; 9], scales: Scales) -> NearState {
    let is_ray = point[0] == 0.0;
    let factor = if is_ray {
        ray_factor(point)
    } else {
        price_unit(scales)
    };
    let mut entries = whole_entries(point, factor);
    entries[0] = if is_ray { 0 } else { two_to(scales.time) };
    NearState { entries }
}

// No entry of a state is above 2^62.
const CAP_OF_PRICES: i128 = 4611686018427387904;

/// What the option pays at a point, or less than 0 where it pays nothing.
pub fn reach(form: &[f64; 9], point: &[f64; 9]) -> f64 {
    plus_products(0.0, form, point)
}

/// What the market owes for these fills at a point, less the liability where it is no ray.
pub fn net_at(book: &Book, fills: &[f64], liability: f64, point: &[f64; 9]) -> f64 {
    let mut total = -(liability * point[0]);
    for leg in book.legs.iter() {
        let fill = entry(fills, leg.order) * leg.size;
        let pays = from_zero(reach(&leg.form, point));
        total = if leg.is_long {
            total + fill * pays
        } else {
            total - fill * pays
        };
    }
    total
}
