//! What a search over a batch begins with, and what it does in each round.

use crate::book::{Book, NearLeg};
use crate::climbs::{Draws, Violated};
use crate::master::Master;
use crate::points::{NearState, bend, unit_ray};
use crate::rounding::{WholeMeasure, measure_of};
use std::alloc::{AllocError, Global};

// The most states that climbs add in a round.
const CLIMBED: u32 = 40;

/// What the random prices of each batch begin with.
pub const SEED: u64 = 88_172_645_463_325_252;

// Adds the ray of each price.
fn add_rays(master: &mut Master, book: &Book) -> Result<(), AllocError> {
    for underlying in 0..book.underlyings {
        let _ = master.add_state(book, unit_ray(underlying.saturating_add(1)))?;
    }
    Ok(())
}

// Adds the states at which one price alone is above 0 and a leg begins or ends to pay.
fn add_bends(master: &mut Master, book: &Book, leg: &NearLeg) -> Result<(), AllocError> {
    for underlying in 0..book.underlyings {
        if let Some(state) = bend(leg, underlying.saturating_add(1), book.scales) {
            let _ = master.add_state(book, state)?;
        }
    }
    Ok(())
}

/// The master program over the states that each batch begins with.
pub fn first_program(alloc: Global, book: &Book) -> Result<Master, AllocError> {
    let mut master = Master::new(alloc, book)?;
    add_rays(&mut master, book)?;
    for leg in book.legs.iter() {
        add_bends(&mut master, book, leg)?;
    }
    Ok(master)
}

/// Keeps the measure of the lesser bound.
pub fn keep_lesser(best: &mut Option<WholeMeasure>, measure: WholeMeasure) {
    let is_lesser = match best {
        Some(old) => measure.bound < old.bound,
        None => true,
    };
    if is_lesser {
        *best = Some(measure);
    }
}

/// Climbs, and adds the states that are violated most. Answers whether there was one, and adds to
/// the work what the climbs cost.
pub fn climb(
    alloc: Global,
    book: &Book,
    master: &mut Master,
    draws: &mut Draws,
    forgiven: f64,
    work: &mut u64,
) -> Result<bool, AllocError> {
    let mut violated = Violated::new(alloc);
    violated.climb_all(alloc, book, master, draws, forgiven)?;
    *work = (*work).saturating_add(violated.work);
    Ok(violated.add_greatest(book, master, CLIMBED)? > 0)
}

/// Adds states. Answers whether one of them was new.
pub fn add_all(book: &Book, master: &mut Master, states: &[NearState]) -> Result<bool, AllocError> {
    let mut is_new = false;
    for state in states {
        if master.add_state(book, *state)? {
            is_new = true;
        }
    }
    Ok(is_new)
}

/// The measure, or that of the prices with rays as they are, whichever has the lesser bound.
pub fn closer_measure(
    alloc: Global,
    book: &Book,
    master: &Master,
    measure: WholeMeasure,
) -> Result<WholeMeasure, AllocError> {
    let priced = measure_of(alloc, book, &master.for_prices(book)?)?;
    Ok(if priced.bound < measure.bound {
        priced
    } else {
        measure
    })
}
