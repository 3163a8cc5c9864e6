//! Bounds of classes without a sign, by classes with one.
//!
//! Where the signs hold, a class pays at most the sum of the entries times the state for the
//! entries `max(A, v + B)`, where v are its own, and A and B are sums of the signed classes' forms
//! with multipliers from 0 on.

use crate::classes::{Class, Classes};
use near_programs::node::sign_at;
use near_programs::numbers::{float_of, nearest_whole, two_to};
use near_programs::{add_entry, add_times, entry, power, set_entry};
use std::alloc::{AllocError, Global};

/// The multipliers of bounds are whole multiples of 2^-12.
pub const MIX_BITS: u32 = 12;
// The most steps of 2^-12 that a multiplier may have.
const MOST_STEPS: i128 = 1_099_511_627_776;

/// A class with a sign, 1 or -1, and its multiplier in steps of 2^-12.
#[derive(Clone, Copy)]
pub struct Mix {
    pub class: usize,
    pub sign: i8,
    pub steps: i128,
}

/// A bound of a class: what stands for its entries, and the multipliers that show it.
#[derive(Drop)]
pub struct Bound {
    pub class: usize,
    pub form: [f64; 9],
    pub plus: Vec<Mix>,
    pub minus: Vec<Mix>,
}

/// The float of so many steps.
fn float_of_steps(steps: i128) -> f64 {
    float_of(steps) / power(MIX_BITS)
}

/// The steps nearest to a float.
pub fn steps_of(value: f64) -> i128 {
    nearest_whole(value * power(MIX_BITS)).clamp(0, MOST_STEPS)
}

/// 1 or -1 as a float.
pub fn signed_one(sign: i8) -> f64 {
    if sign == 1 { 1.0 } else { -1.0 }
}

/// The class at a place; where there is none, one that pays nothing.
pub fn class_at(classes: &Classes, place: usize) -> Class {
    match classes.classes.get(place) {
        Some(class) => *class,
        None => Class {
            entries: [0; 9],
            form: [0.0; 9],
            upper: [0.0; 9],
        },
    }
}

// Adds a mixture to the entries.
fn add_mixes(classes: &Classes, form: &mut [f64; 9], mixes: &[Mix]) {
    for mix in mixes {
        let factor = float_of_steps(mix.steps) * signed_one(mix.sign);
        add_times(form, factor, &class_at(classes, mix.class).form);
    }
}

// Entry by entry the greater.
fn greater(first: &[f64; 9], second: &[f64; 9]) -> [f64; 9] {
    let mut made = *first;
    for (place, number) in second.iter().enumerate() {
        let most = number.max(entry(first, place));
        set_entry(&mut made, place, most);
    }
    made
}

impl Bound {
    /// The bound of a class that these multipliers show.
    pub fn new(classes: &Classes, class: usize, plus: Vec<Mix>, minus: Vec<Mix>) -> Bound {
        let mut first = [0.0; 9];
        add_mixes(classes, &mut first, &plus);
        let mut second = class_at(classes, class).form;
        add_mixes(classes, &mut second, &minus);
        Bound {
            class,
            form: greater(&first, &second),
            plus,
            minus,
        }
    }
}

// A multiplier times a share, added to that of its class in a list of floats.
fn add_share(shares: &mut [f64], signs: &mut [i8], mix: &Mix, share: f64) {
    if let Some(sign) = signs.get_mut(mix.class) {
        *sign = mix.sign;
    }
    add_entry(shares, mix.class, float_of_steps(mix.steps) * share);
}

fn add_shares(shares: &mut [f64], signs: &mut [i8], mixes: &[Mix], share: f64) {
    for mix in mixes {
        add_share(shares, signs, mix, share);
    }
}

// The multipliers whose shares are above 0 as they are rounded.
fn mixes_of(alloc: Global, shares: &[f64], signs: &[i8]) -> Result<Vec<Mix>, AllocError> {
    let mut mixes = Vec::new(alloc);
    for (class, share) in shares.iter().enumerate() {
        let steps = steps_of(*share);
        if steps > 0 {
            mixes.push(Mix {
                class,
                sign: sign_at(signs, class),
                steps,
            })?;
        }
    }
    Ok(mixes)
}

// So much of the second list of multipliers, and the rest of the first.
fn mixed_list(
    alloc: Global,
    count: usize,
    first: &[Mix],
    second: &[Mix],
    share: f64,
) -> Result<Vec<Mix>, AllocError> {
    let mut shares = vec![in alloc; 0.0; count]?;
    let mut signs = vec![in alloc; 0i8; count]?;
    add_shares(&mut shares, &mut signs, first, 1.0 - share);
    add_shares(&mut shares, &mut signs, second, share);
    mixes_of(alloc, &shares, &signs)
}

fn plus_of(bound: Option<&Bound>) -> &[Mix] {
    match bound {
        Some(bound) => &bound.plus,
        None => &[],
    }
}

fn minus_of(bound: Option<&Bound>) -> &[Mix] {
    match bound {
        Some(bound) => &bound.minus,
        None => &[],
    }
}

/// The bound that is so much of the second and the rest of the first, which may be what bounds the
/// class where nothing is known. The error is want of memory.
pub fn mixed(
    alloc: Global,
    classes: &Classes,
    first: Option<&Bound>,
    second: &Bound,
    share: f64,
) -> Result<Bound, AllocError> {
    let count = classes.classes.len();
    let plus = mixed_list(alloc, count, plus_of(first), &second.plus, share)?;
    let minus = mixed_list(alloc, count, minus_of(first), &second.minus, share)?;
    Ok(Bound::new(classes, second.class, plus, minus))
}

/// A step of 2^-12 for each unit.
pub fn steps_in_one() -> i128 {
    two_to(MIX_BITS)
}
