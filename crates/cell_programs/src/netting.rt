//! What fills come to by classes: a kink for each, and a line.

use crate::classes::{ClassLeg, Classes};
use near_programs::mending::add_units;
use near_programs::numbers::{add_whole, whole_at};
use near_programs::{add_entry, add_times, entry, set_entry};
use std::alloc::{AllocError, Global};

// A kink that is at most so much of its parts is 0: 2^-44.
const CANCELLED: f64 = 5.684341886080802e-14;

/// What the market owes by scaled fills: so much of each class, and a line.
#[derive(Drop)]
pub struct Net {
    pub kinks: Vec<f64>,
    pub slope: [f64; 9],
}

/// The same in units.
#[derive(Drop)]
pub struct WholeNet {
    pub kinks: Vec<i128>,
    pub slope: [i128; 9],
}

impl Net {
    /// Nets scaled fills. The error is want of memory.
    pub fn new(alloc: Global, classes: &Classes, fills: &[f64]) -> Result<Net, AllocError> {
        let count = classes.classes.len();
        let mut net = Net {
            kinks: vec![in alloc; 0.0; count]?,
            slope: [0.0; 9],
        };
        let mut parts = vec![in alloc; 0.0; count]?;
        for leg in classes.legs.iter() {
            net.add_leg(classes, leg, entry(fills, leg.order), &mut parts);
        }
        net.clear_cancelled(&parts);
        Ok(net)
    }

    // Adds a leg of an order with this fill, and its size to the parts of its class.
    fn add_leg(&mut self, classes: &Classes, leg: &ClassLeg, fill: f64, parts: &mut [f64]) {
        let amount = fill * leg.size;
        add_entry(&mut self.kinks, leg.class, amount);
        add_entry(parts, leg.class, amount.abs());
        if leg.is_turned {
            if let Some(class) = classes.classes.get(leg.class) {
                add_times(&mut self.slope, -amount, &class.form);
            }
        }
    }

    // Makes the kinks 0 that only rounding left.
    fn clear_cancelled(&mut self, parts: &[f64]) {
        for (place, part) in parts.iter().enumerate() {
            if entry(&self.kinks, place).abs() <= *part * CANCELLED {
                set_entry(&mut self.kinks, place, 0.0);
            }
        }
    }
}

impl WholeNet {
    /// Nets fills in units. None where a sum does not fit; the error is want of memory.
    pub fn new(
        alloc: Global,
        classes: &Classes,
        units: &[i128],
    ) -> Result<Option<WholeNet>, AllocError> {
        let mut net = WholeNet {
            kinks: vec![in alloc; 0i128; classes.classes.len()]?,
            slope: [0; 9],
        };
        match net.add_legs(classes, units) {
            Some(()) => Ok(Some(net)),
            None => Ok(None),
        }
    }

    fn add_legs(&mut self, classes: &Classes, units: &[i128]) -> Option<()> {
        for leg in classes.legs.iter() {
            self.add_leg(classes, leg, whole_at(units, leg.order))?;
        }
        Some(())
    }

    fn add_leg(&mut self, classes: &Classes, leg: &ClassLeg, fill: i128) -> Option<()> {
        let amount = fill.checked_mul(leg.amount)?;
        add_whole(&mut self.kinks, leg.class, amount);
        if leg.is_turned {
            let class = classes.classes.get(leg.class)?;
            add_units(&mut self.slope, &class.entries, 0i128.checked_sub(amount)?)?;
        }
        Some(())
    }
}
