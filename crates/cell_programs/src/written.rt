//! The cover as it is written in a proposal line, and how long it is there.

use crate::bounds::{Bound, MIX_BITS, Mix};
use cell_cover::cover::{ClassNumbers, Multiplier, Multipliers, Node, Nodes};
use frac::Frac128;
use near_programs::fractions::{bytes_of, digits, dyadic, number_of};
use near_programs::node::sign_at;
use near_programs::numbers::{add_whole, whole_at};
use near_programs::rounding::FILL_BITS;
use std::alloc::{AllocError, Global};

/// How long a cover may be: its bytes, its nodes, and how many classes all its lists may have.
#[derive(Clone, Copy)]
pub struct Room {
    pub bytes: usize,
    pub nodes: usize,
    pub listed: usize,
}

// The bytes of {"split":N}, of {"bound":N,"minus":[],"plus":[]}, of {"leaf":[]} and of "full":[],
// with the comma behind each; of N,"M" beside N and M; and of N in a list.
const SPLIT_BYTES: usize = 11;

const BOUND_BYTES: usize = 32;

const LEAF_BYTES: usize = 12;

const FULL_BYTES: usize = 10;

const MULTIPLIER_BYTES: usize = 4;

const CLASS_BYTES: usize = 1;

/// The cover as it is written so far, with its bytes, how many classes its lists have, and the
/// liability in units that its leaves need.
#[derive(Drop)]
pub struct Written {
    alloc: Global,
    nodes: Vec<Node>,
    bytes: usize,
    listed: usize,
    liability: Option<i128>,
}

/// A leaf's classes that stand with their whole kinks, and the multipliers of others.
#[derive(Drop)]
struct LeafLists {
    full: Vec<u32>,
    multipliers: Vec<Multiplier>,
}

fn digits_of(place: usize) -> usize {
    digits(i128::from(number_of(place)))
}

impl Written {
    /// Nothing yet.
    pub fn new(alloc: Global) -> Written {
        Written {
            alloc,
            nodes: Vec::new(alloc),
            bytes: 0,
            listed: 0,
            liability: None,
        }
    }

    /// Whether it is longer than a cover may be.
    pub fn is_long(&self, room: Room) -> bool {
        self.bytes > room.bytes || self.nodes.len() > room.nodes || self.listed > room.listed
    }

    fn add_bytes(&mut self, some: usize, more: usize) {
        self.bytes = self.bytes.saturating_add(some).saturating_add(more);
    }

    // Counts a class in a list.
    fn count_class(&mut self, place: usize, more: usize) {
        self.listed = self.listed.saturating_add(1);
        self.add_bytes(digits_of(place), more);
    }

    /// Writes a split at a class. The error is want of memory, as of each call that writes.
    pub fn add_split(&mut self, place: usize) -> Result<(), AllocError> {
        self.add_bytes(SPLIT_BYTES, digits_of(place));
        let class = number_of(place);
        self.nodes.push(Node::Split { class })?;
        Ok(())
    }

    // The multiplier of a class. None where it does not fit.
    fn multiplier(&mut self, place: usize, units: i128, bits: u32) -> Option<Multiplier> {
        let by: Frac128 = dyadic(units, bits)?;
        self.count_class(place, MULTIPLIER_BYTES.saturating_add(bytes_of(by)));
        let class = number_of(place);
        Some(Multiplier { class, by })
    }

    // The multipliers of a mixture by classes. None where one does not fit.
    fn mixture(&mut self, count: usize, mixes: &[Mix]) -> Result<Option<Multipliers>, AllocError> {
        let steps = steps_by_class(self.alloc, count, mixes)?;
        let mut list = Vec::new(self.alloc);
        for (place, units) in steps.iter().enumerate() {
            if *units > 0 {
                let Some(multiplier) = self.multiplier(place, *units, MIX_BITS) else {
                    return Ok(None);
                };
                list.push(multiplier)?;
            }
        }
        Ok(Some(Multipliers::from_vec(list)))
    }

    /// Writes a bound of one of so many classes. Answers whether all fits.
    pub fn add_bound(&mut self, count: usize, bound: &Bound) -> Result<bool, AllocError> {
        let Some(minus) = self.mixture(count, &bound.minus)? else {
            return Ok(false);
        };
        let Some(plus) = self.mixture(count, &bound.plus)? else {
            return Ok(false);
        };
        self.add_bytes(BOUND_BYTES, digits_of(bound.class));
        let class = number_of(bound.class);
        self.nodes.push(Node::Bound { class, minus, plus })?;
        Ok(true)
    }

    // Puts a class with a multiplier into one of a leaf's lists. Answers whether it fits.
    fn list_class(
        &mut self,
        lists: &mut LeafLists,
        place: usize,
        units: i128,
        is_full: bool,
    ) -> Result<bool, AllocError> {
        if is_full {
            self.count_class(place, CLASS_BYTES);
            lists.full.push(number_of(place))?;
            return Ok(true);
        }
        let Some(multiplier) = self.multiplier(place, units, FILL_BITS) else {
            return Ok(false);
        };
        lists.multipliers.push(multiplier)?;
        Ok(true)
    }

    // The lists of a leaf with these multipliers of all classes. None where one does not fit.
    fn leaf_lists(
        &mut self,
        signs: &[i8],
        kinks: &[i128],
        multipliers: &[i128],
    ) -> Result<Option<LeafLists>, AllocError> {
        let mut lists = LeafLists {
            full: Vec::new(self.alloc),
            multipliers: Vec::new(self.alloc),
        };
        for (place, units) in multipliers.iter().enumerate() {
            let whole = 0i128.saturating_sub(whole_at(kinks, place));
            let is_full = sign_at(signs, place) == 0 && *units == whole;
            if *units > 0 && !self.list_class(&mut lists, place, *units, is_full)? {
                return Ok(None);
            }
        }
        Ok(Some(lists))
    }

    /// Writes a leaf with these signs that needs so much liability in units, by the multipliers of
    /// all classes in units. Answers whether all fit.
    pub fn add_leaf(
        &mut self,
        signs: &[i8],
        kinks: &[i128],
        multipliers: &[i128],
        need: i128,
    ) -> Result<bool, AllocError> {
        let Some(lists) = self.leaf_lists(signs, kinks, multipliers)? else {
            return Ok(false);
        };
        let more = if lists.full.is_empty() { 0 } else { FULL_BYTES };
        self.add_bytes(LEAF_BYTES, more);
        self.raise(need);
        self.nodes.push(Node::Leaf {
            full: ClassNumbers::from_vec(lists.full),
            multipliers: Multipliers::from_vec(lists.multipliers),
        })?;
        Ok(true)
    }

    // Raises the liability to what a leaf needs.
    fn raise(&mut self, need: i128) {
        self.liability = match self.liability {
            Some(old) => Some(old.max(need)),
            None => Some(need),
        };
    }

    /// The liability in units and the nodes, with their bytes. None where no leaf is written.
    pub fn finished(self) -> Option<CellCover> {
        let liability = self.liability?;
        Some(CellCover {
            liability,
            bytes: self.bytes,
            nodes: Nodes::from_vec(self.nodes),
        })
    }
}

/// A cover by cells, its liability in units of 2^-40, and the bytes of its text.
#[derive(Drop)]
pub struct CellCover {
    pub liability: i128,
    pub bytes: usize,
    pub nodes: Nodes,
}

// The steps of each class in a mixture.
fn steps_by_class(alloc: Global, count: usize, mixes: &[Mix]) -> Result<Vec<i128>, AllocError> {
    let mut steps = vec![in alloc; 0i128; count]?;
    for mix in mixes {
        add_whole(&mut steps, mix.class, mix.steps);
    }
    Ok(steps)
}
