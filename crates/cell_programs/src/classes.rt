//! The classes of a book: options that are multiples of one another are taken together.

use exact_num::gcd_of_short;
use near_programs::book::scaled_form;
use near_programs::numbers::float_of;
use near_programs::{Book, NearLeg, Scales, entry, from_zero, set_entry};
use std::alloc::{AllocError, Global};

/// A class: an option whose entries no whole number above 1 divides, and whose first weight that is
/// not 0 is above 0; once more in scaled floats; and these with 0 for those below, which is what
/// bounds the class where nothing is known of it.
#[derive(Clone, Copy)]
pub struct Class {
    pub entries: [i64; 9],
    pub form: [f64; 9],
    pub upper: [f64; 9],
}

/// A leg by its class: its order, the place of the class, how much of the class the market owes for
/// each 1 of the order, below 0 where it is owed, and once more as a float; and whether the leg's
/// option is a multiple below 0, which is the multiple above 0 less a line.
#[derive(Clone, Copy)]
pub struct ClassLeg {
    pub order: usize,
    pub class: usize,
    pub amount: i128,
    pub size: f64,
    pub is_turned: bool,
}

/// The classes of a book in the order in which they first come by its legs, and the legs.
#[derive(Drop)]
pub struct Classes {
    pub classes: Vec<Class>,
    pub legs: Vec<ClassLeg>,
}

// The greatest number that divides each entry, and 1 where all are 0.
fn divisor_of(entries: &[i64; 9]) -> u64 {
    let mut divisor = 0;
    for entry in entries {
        divisor = gcd_of_short(divisor, entry.unsigned_abs());
    }
    divisor.max(1)
}

// Whether the first weight that is not 0 is below 0.
fn is_turned(entries: &[i64; 9]) -> bool {
    for (place, entry) in entries.iter().enumerate() {
        if place > 0 && *entry != 0 {
            return *entry < 0;
        }
    }
    false
}

// An entry without the divisor, its sign turned or not.
fn class_entry(entry: i64, divisor: u64, is_turned: bool) -> i64 {
    let quotient = i128::from(entry).div_euclid(i128::from(divisor).max(1));
    let signed = if is_turned {
        0i128.saturating_sub(quotient)
    } else {
        quotient
    };
    i64::try_from(signed).unwrap_or(0)
}

// The entries of the class.
fn class_entries(entries: &[i64; 9], divisor: u64, is_turned: bool) -> [i64; 9] {
    let mut made = *entries;
    for entry in made.iter_mut() {
        *entry = class_entry(*entry, divisor, is_turned);
    }
    made
}

// The numbers, or 0 where they are below.
fn upper_of(form: &[f64; 9]) -> [f64; 9] {
    let mut upper = *form;
    for (place, number) in form.iter().enumerate() {
        set_entry(&mut upper, place, from_zero(*number));
    }
    upper
}

fn class_with(entries: [i64; 9], scales: Scales) -> Class {
    let form = scaled_form(&entries, scales);
    Class {
        entries,
        form,
        upper: upper_of(&form),
    }
}

impl Classes {
    /// The classes of a book. The error is want of memory.
    pub fn new(alloc: Global, book: &Book) -> Result<Classes, AllocError> {
        let mut classes = Classes {
            classes: Vec::new(alloc),
            legs: Vec::new(alloc),
        };
        for leg in book.legs.iter() {
            classes.add_leg(leg, book.scales)?;
        }
        Ok(classes)
    }

    // Adds a leg, and its class where it is the first.
    fn add_leg(&mut self, leg: &NearLeg, scales: Scales) -> Result<(), AllocError> {
        let divisor = divisor_of(&leg.entries);
        let is_turned = is_turned(&leg.entries);
        let entries = class_entries(&leg.entries, divisor, is_turned);
        let factor = i128::from(divisor);
        let size = leg.count.saturating_mul(factor);
        let class = self.place_of(entries, scales)?;
        self.legs.push(ClassLeg {
            order: leg.order,
            class,
            amount: signed(leg.is_long, size),
            size: leg.size * float_of(signed(leg.is_long, factor)),
            is_turned,
        })?;
        Ok(())
    }

    // The place of the class with these entries.
    fn find(&self, entries: &[i64; 9]) -> Option<usize> {
        for (place, class) in self.classes.iter().enumerate() {
            if class.entries == *entries {
                return Some(place);
            }
        }
        None
    }

    // The place of the class with these entries, which is added where there is none.
    fn place_of(&mut self, entries: [i64; 9], scales: Scales) -> Result<usize, AllocError> {
        if let Some(place) = self.find(&entries) {
            return Ok(place);
        }
        let place = self.classes.len();
        self.classes.push(class_with(entries, scales))?;
        Ok(place)
    }
}

// The number, below 0 where it is owed to the market.
fn signed(is_long: bool, number: i128) -> i128 {
    if is_long {
        number
    } else {
        0i128.saturating_sub(number)
    }
}

/// What a form comes to at a point.
pub fn value_at(form: &[f64; 9], point: &[f64; 9]) -> f64 {
    let mut value = 0.0;
    for (place, number) in form.iter().enumerate() {
        value = value + *number * entry(point, place);
    }
    value
}
