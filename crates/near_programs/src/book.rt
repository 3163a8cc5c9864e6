//! The batch as the solver sees it: orders and legs one behind another, in floats about 1 and in
//! whole numbers.
//!
//! Money is divided by 2^money, prices of underlyings by 2^(money - weight), weights by 2^weight,
//! fills by 2^fill.

use crate::numbers::{bits_of, float_of};
use crate::rows::{power, set_entry};
use form::{Batch, Leg, Order, Side};
use std::alloc::{AllocError, Global};
use std::num::nearest_i64_to_f64;

/// The powers of two by which the solver's floats are divided, and the bits after the point of a
/// state's prices.
#[derive(Clone, Copy)]
pub struct Scales {
    pub money: u32,
    pub weight: u32,
    pub fill: u32,
    pub time: u32,
}

/// An order: its limit price in ticks, negative for a sell, and its quantity; both once more in
/// scaled floats; the scaled fill that counts as 1 in the master program, near the root of the
/// greatest, so that its tolerances fit small orders beside large ones; and whether the market owes
/// what one of its legs pays, so that less of it is less to cover.
#[derive(Clone, Copy)]
pub struct NearOrder {
    pub has_long: bool,
    pub limit: i128,
    pub quantity: i128,
    pub scaled_limit: f64,
    pub most: f64,
    pub unit: f64,
}

/// A leg: the place of its order, whether the market owes what it pays, the size of its count, and
/// its option; count and option once more in floats, the option's scaled.
#[derive(Clone, Copy)]
pub struct NearLeg {
    pub order: usize,
    pub is_long: bool,
    pub count: i128,
    pub size: f64,
    pub entries: [i64; 9],
    pub form: [f64; 9],
}

/// A batch: its orders, and their legs order by order, as a tree of signs counts them.
#[derive(Drop)]
pub struct Book {
    pub underlyings: usize,
    pub scales: Scales,
    pub orders: Vec<NearOrder>,
    pub legs: Vec<NearLeg>,
}

// What the scales are taken from.
#[derive(Clone, Copy)]
struct Greatest {
    money: i128,
    weight: i128,
    quantity: i128,
}

fn size_of_entry(entry: i64) -> i128 {
    i128::from(entry.unsigned_abs())
}

fn with_form(greatest: Greatest, entries: &[i64; 9]) -> Greatest {
    let mut weight = greatest.weight;
    for (place, entry) in entries.iter().enumerate() {
        if place > 0 {
            weight = weight.max(size_of_entry(*entry));
        }
    }
    Greatest {
        money: greatest.money.max(size_of_entry(entries[0])),
        weight,
        quantity: greatest.quantity,
    }
}

fn with_order(greatest: Greatest, order: &Order) -> Greatest {
    let mut greatest = Greatest {
        money: greatest.money.max(i128::from(order.price)),
        weight: greatest.weight,
        quantity: greatest.quantity.max(i128::from(order.quantity)),
    };
    for leg in order.bundle.as_slice() {
        greatest = with_form(greatest, &leg.form.entries);
    }
    greatest
}

fn scales_of(orders: &[Order]) -> Scales {
    let mut greatest = Greatest {
        money: 1,
        weight: 1,
        quantity: 1,
    };
    for order in orders {
        greatest = with_order(greatest, order);
    }
    let money = bits_of(greatest.money);
    Scales {
        money,
        weight: bits_of(greatest.weight),
        fill: bits_of(greatest.quantity),
        time: 36u32.saturating_sub(money).max(4),
    }
}

fn is_buy(side: Side) -> bool {
    match side {
        Side::Buy => true,
        Side::Sell => false,
    }
}

// The entries, each divided.
fn divided(entries: &[i64; 9], by: f64) -> [f64; 9] {
    let mut form = [0.0; 9];
    for (place, entry) in entries.iter().enumerate() {
        set_entry(&mut form, place, nearest_i64_to_f64(*entry) / by);
    }
    form
}

/// The entries in scaled floats.
pub fn scaled_form(entries: &[i64; 9], scales: Scales) -> [f64; 9] {
    let mut form = divided(entries, power(scales.weight));
    form[0] = nearest_i64_to_f64(entries[0]) / power(scales.money);
    form
}

// Whether the market owes what a leg with this count pays.
fn is_long(side: Side, leg: &Leg) -> bool {
    is_buy(side) == (leg.count > 0)
}

fn has_long(order: &Order) -> bool {
    for leg in order.bundle.as_slice() {
        if is_long(order.side, leg) {
            return true;
        }
    }
    false
}

fn near_order(order: &Order, scales: Scales) -> NearOrder {
    let price = i128::from(order.price);
    let limit = if is_buy(order.side) {
        price
    } else {
        0i128.saturating_sub(price)
    };
    let quantity = i128::from(order.quantity);
    NearOrder {
        has_long: has_long(order),
        limit,
        quantity,
        scaled_limit: float_of(limit) / power(scales.money),
        most: float_of(quantity) / power(scales.fill),
        unit: unit_of(quantity, scales),
    }
}

// The power of two near the root of a scaled quantity.
fn unit_of(quantity: i128, scales: Scales) -> f64 {
    1.0 / power(scales.fill.saturating_sub(bits_of(quantity)) / 2)
}

fn near_leg(order: usize, side: Side, leg: &Leg, scales: Scales) -> NearLeg {
    let count = i128::from(leg.count.unsigned_abs());
    NearLeg {
        order,
        is_long: is_long(side, leg),
        count,
        size: float_of(count),
        entries: leg.form.entries,
        form: scaled_form(&leg.form.entries, scales),
    }
}

fn add_legs(
    legs: &mut Vec<NearLeg>,
    place: usize,
    order: &Order,
    scales: Scales,
) -> Result<(), AllocError> {
    for leg in order.bundle.as_slice() {
        legs.push(near_leg(place, order.side, leg, scales))?;
    }
    Ok(())
}

impl Book {
    /// The batch as the solver sees it. The error is want of memory.
    pub fn new(alloc: Global, batch: &Batch) -> Result<Book, AllocError> {
        let listed = batch.orders.as_slice();
        let scales = scales_of(listed);
        let mut orders = Vec::new(alloc);
        let mut legs = Vec::new(alloc);
        for (place, order) in listed.iter().enumerate() {
            orders.push(near_order(order, scales))?;
            add_legs(&mut legs, place, order, scales)?;
        }
        Ok(Book {
            underlyings: usize::from(batch.underlyings).clamp(1, 8),
            scales,
            orders,
            legs,
        })
    }

    /// A number for each order, all 0. The error is want of memory.
    pub fn zeros(&self, alloc: Global) -> Result<Vec<f64>, AllocError> {
        vec![in alloc; 0.0; self.orders.len()]
    }
}
