//! Leaves that are open: by how much, which comes first, and where more is owed than is covered.

use crate::book::Book;
use crate::master::Master;
use crate::node::{Found, RAY_TOLERANCE};
use crate::points::{NearState, net_at, state_of};
use std::alloc::{AllocError, Global};

// What the excess of a ray is counted above what is owed along it, so that rays come first.
const RAY_EXCESS: f64 = 1e6;

/// What the tree is grown for.
#[derive(Clone, Copy)]
pub struct Aim<'a> {
    pub alloc: Global,
    pub book: &'a Book,
    pub master: &'a Master,
    pub forgiven: f64,
}

/// A leaf that is not closed: where, and by how much.
#[derive(Clone, Copy)]
pub struct Open {
    pub leaf: usize,
    pub excess: f64,
    pub point: [f64; 9],
}

/// Whether a sum behind the first is above 0.
pub fn has_slope_above(sums: &[f64; 9]) -> bool {
    for (place, sum) in sums.iter().enumerate() {
        if place > 0 && *sum > 0.0 {
            return true;
        }
    }
    false
}

/// By how much more than the liability a leaf wants; 0 where that is forgiven.
pub fn excess_of(aim: Aim, found: &Found) -> f64 {
    let excess = if found.is_ray() {
        RAY_EXCESS + found.value
    } else {
        found.value - aim.master.liability
    };
    if excess <= aim.forgiven { 0.0 } else { excess }
}

/// How a leaf is open by an answer, where it is.
pub fn open_by(aim: Aim, leaf: usize, found: &Found) -> Option<Open> {
    let excess = excess_of(aim, found);
    if excess <= 0.0 {
        return None;
    }
    Some(Open {
        leaf,
        excess,
        point: found.point,
    })
}

// The place of the open leaf of greatest excess.
fn place_of_greatest(opens: &[Open]) -> Option<usize> {
    let mut most = 0.0;
    let mut place = None;
    for (i, open) in opens.iter().enumerate() {
        if open.excess > most {
            most = open.excess;
            place = Some(i);
        }
    }
    place
}

/// The open leaf of greatest excess, which is taken from the list.
pub fn take_greatest(opens: &mut Vec<Open>) -> Option<Open> {
    let place = place_of_greatest(opens)?;
    if place < opens.len() {
        Some(opens.swap_remove(place))
    } else {
        None
    }
}

/// The place of the greatest number above 0.
pub fn place_of_most(numbers: &[f64]) -> Option<usize> {
    let mut most = 0.0;
    let mut place = None;
    for (i, number) in numbers.iter().enumerate() {
        if *number > most {
            most = *number;
            place = Some(i);
        }
    }
    place
}

/// The signs with one more.
pub fn with_sign(alloc: Global, signs: &[i8], leg: usize, sign: i8) -> Result<Vec<i8>, AllocError> {
    let mut more = Vec::new(alloc);
    for (i, old) in signs.iter().enumerate() {
        more.push(if i == leg { sign } else { *old })?;
    }
    Ok(more)
}

/// The state of an open leaf, where more is owed there than is forgiven and the master program does
/// not know it.
pub fn violated(aim: Aim, open: &Open) -> Option<NearState> {
    let net = net_at(
        aim.book,
        &aim.master.fills,
        aim.master.liability,
        &open.point,
    );
    let least = if open.point[0] == 0.0 {
        RAY_TOLERANCE
    } else {
        aim.forgiven * 0.5
    };
    let state = state_of(&open.point, aim.book.scales);
    if net > least && !aim.master.has_state(&state) {
        Some(state)
    } else {
        None
    }
}
