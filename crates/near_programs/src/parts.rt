//! Parts of a book whose tree does not fit: the orders without a long leg, and of the others those
//! of greatest gain; and the book whose limits are worse, whose prices rank them.

use crate::book::{Book, NearLeg, NearOrder};
use crate::numbers::{float_of, nearest_whole, whole_at};
use crate::rounding::WEIGHT_BITS;
use crate::rows::{entry, power};
use std::alloc::{AllocError, Global};

// The orders with a long leg in the first part.
const FIRST_GROUP: usize = 12;
// Less than any order's scaled quantity above 0.
const LEAST_MOST: f64 = 1e-18;
// The most parts that do not fit.
const MISFITS: u32 = 6;

// The order, or the same with nothing to fill.
fn kept_or_not(order: &NearOrder, is_kept: bool) -> NearOrder {
    let mut kept = *order;
    if !is_kept {
        kept.quantity = 0;
        kept.most = 0.0;
    }
    kept
}

fn copy_legs(alloc: Global, legs: &[NearLeg]) -> Result<Vec<NearLeg>, AllocError> {
    let mut copies = Vec::new(alloc);
    for leg in legs {
        copies.push(*leg)?;
    }
    Ok(copies)
}

// Whether each order has no long leg.
fn without_long(alloc: Global, book: &Book) -> Result<Vec<bool>, AllocError> {
    let mut keeps = Vec::new(alloc);
    for order in book.orders.iter() {
        keeps.push(!order.has_long)?;
    }
    Ok(keeps)
}

fn is_kept(keeps: &[bool], place: usize) -> bool {
    match keeps.get(place) {
        Some(kept) => *kept,
        None => false,
    }
}

fn keep(keeps: &mut [bool], place: usize) {
    if let Some(kept) = keeps.get_mut(place) {
        *kept = true;
    }
}

/// The book in which only the orders that are kept may be filled. The others keep their places,
/// with nothing to fill. The error is want of memory.
pub fn part_of(alloc: Global, book: &Book, keeps: &[bool]) -> Result<Book, AllocError> {
    let mut orders = Vec::new(alloc);
    for (i, order) in book.orders.iter().enumerate() {
        orders.push(kept_or_not(order, is_kept(keeps, i)))?;
    }
    with_orders(alloc, book, orders)
}

/// What scaled fills gain of what the orders gain where they are filled whole. The error is want of
/// memory.
pub fn filled_gains(
    alloc: Global,
    book: &Book,
    gains: &[i128],
    fills: &[f64],
) -> Result<Vec<i128>, AllocError> {
    let mut filled = Vec::new(alloc);
    for (i, order) in book.orders.iter().enumerate() {
        let share = entry(fills, i) / order.most.max(LEAST_MOST);
        filled.push(nearest_whole(float_of(whole_at(gains, i)) * share))?;
    }
    Ok(filled)
}

/// The book in which each order's scaled limit is worse by a share of its spread, in units of
/// 2^-(40 + time). The error is want of memory.
pub fn with_worse_limits(
    alloc: Global,
    book: &Book,
    spreads: &[i128],
    share: f64,
) -> Result<Book, AllocError> {
    let scales = book.scales;
    let unit = power(WEIGHT_BITS) * power(scales.time) * power(scales.money);
    let mut orders = Vec::new(alloc);
    for (i, order) in book.orders.iter().enumerate() {
        let mut worse = *order;
        let spread = float_of(whole_at(spreads, i)) / unit;
        worse.scaled_limit = order.scaled_limit - spread * share;
        orders.push(worse)?;
    }
    with_orders(alloc, book, orders)
}

// The book with these in the place of its orders.
fn with_orders(alloc: Global, book: &Book, orders: Vec<NearOrder>) -> Result<Book, AllocError> {
    Ok(Book {
        underlyings: book.underlyings,
        scales: book.scales,
        orders,
        legs: copy_legs(alloc, &book.legs)?,
    })
}

/// How a part grows: the orders without a long leg, and the others in groups, those of greatest
/// gain first. A group is half of all before it until one does not fit, and half of the last from
/// then on; an order that alone does not fit is left out.
#[derive(Drop)]
pub struct Growth {
    gains: Vec<i128>,
    keeps: Vec<bool>,
    // those kept and those left out
    decided: Vec<bool>,
    kept: usize,
    group: usize,
    misfits: u32,
}

// The place of the greatest gain above 0 of an order that is not decided on.
fn best_place(gains: &[i128], decided: &[bool]) -> Option<usize> {
    let mut most = 0i128;
    let mut best = None;
    for (i, gain) in gains.iter().enumerate() {
        if *gain > most && !is_kept(decided, i) {
            most = *gain;
            best = Some(i);
        }
    }
    best
}

impl Growth {
    /// Nothing with a long leg yet, by these gains. The error is want of memory.
    pub fn new(alloc: Global, book: &Book, gains: Vec<i128>) -> Result<Growth, AllocError> {
        let keeps = without_long(alloc, book)?;
        let decided = keeps.clone()?;
        Ok(Growth {
            gains,
            keeps,
            decided,
            kept: 0,
            group: FIRST_GROUP,
            misfits: 0,
        })
    }

    /// Whether no order is left that gains, or as many parts did not fit as may.
    pub fn is_over(&self) -> bool {
        best_place(&self.gains, &self.decided).is_none() || self.misfits >= MISFITS
    }

    /// The orders that fit so far, and the next group. The error is want of memory.
    pub fn with_next(&self) -> Result<Vec<bool>, AllocError> {
        let mut keeps = self.keeps.clone()?;
        let mut decided = self.decided.clone()?;
        for _ in 0..self.group {
            let Some(place) = best_place(&self.gains, &decided) else {
                break;
            };
            keep(&mut decided, place);
            keep(&mut keeps, place);
        }
        Ok(keeps)
    }

    /// Notes that they fit, and what each order gains where these are filled.
    pub fn take(&mut self, keeps: Vec<bool>, gains: Vec<i128>) {
        for (i, is_new) in keeps.iter().enumerate() {
            if *is_new {
                keep(&mut self.decided, i);
            }
        }
        self.keeps = keeps;
        self.gains = gains;
        self.kept = self.kept.saturating_add(self.group);
        let before = if self.misfits == 0 {
            self.kept
        } else {
            self.group
        };
        self.group = (before / 2).max(1);
    }

    /// Notes that they do not.
    pub fn leave(&mut self) {
        self.misfits = self.misfits.saturating_add(1);
        if self.group == 1 {
            self.leave_out();
        }
        self.group = (self.group / 2).max(1);
    }

    // Leaves the next order out.
    fn leave_out(&mut self) {
        if let Some(place) = best_place(&self.gains, &self.decided) {
            keep(&mut self.decided, place);
        }
    }
}
