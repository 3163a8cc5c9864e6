//! What the solver answers: a proposal in fractions.

use cert_check::{Claim, Fills, Measure, Points, Weighted};
use form::State;
use near_programs::fractions::dyadic;
use near_programs::points::NearState;
use near_programs::rounding::{FILL_BITS, WEIGHT_BITS, WholeMeasure, WholePoint};
use proposal_check::{Proposal, ProposalCover};
use std::alloc::{AllocError, Global};

// The fills in fractions.
fn fraction_fills(alloc: Global, units: &[i128]) -> Result<Option<Fills>, AllocError> {
    let mut fills = Vec::new(alloc);
    for unit in units {
        let Some(fill) = dyadic(*unit, FILL_BITS) else {
            return Ok(None);
        };
        fills.push(fill)?;
    }
    Ok(Some(Fills::from_vec(fills)))
}

// The first entries of a state.
fn state_on(
    alloc: Global,
    underlyings: usize,
    state: &NearState,
) -> Result<Option<State>, AllocError> {
    let mut entries = Vec::new(alloc);
    for entry in state.entries.iter().take(underlyings.saturating_add(1)) {
        entries.push(*entry)?;
    }
    Ok(State::from_entries(&entries))
}

// The measure in fractions.
fn fraction_measure(
    alloc: Global,
    underlyings: usize,
    time: u32,
    whole: &WholeMeasure,
) -> Result<Option<Measure>, AllocError> {
    let bits = WEIGHT_BITS.saturating_add(time);
    let mut points = Vec::new(alloc);
    for point in whole.points.iter() {
        if point.weight > 0 {
            let Some(weighted) = weighted_on(alloc, underlyings, bits, point)? else {
                return Ok(None);
            };
            points.push(weighted)?;
        }
    }
    Ok(Some(Measure {
        points: Points::from_vec(points),
    }))
}

// The point in fractions, with its weight in units of 2^-bits.
fn weighted_on(
    alloc: Global,
    underlyings: usize,
    bits: u32,
    point: &WholePoint,
) -> Result<Option<Weighted>, AllocError> {
    let Some(state) = state_on(alloc, underlyings, &point.state)? else {
        return Ok(None);
    };
    match dyadic(point.weight, bits) {
        Some(weight) => Ok(Some(Weighted { state, weight })),
        None => Ok(None),
    }
}

// Liability and surplus.
fn claim_of(liability: i128, surplus: i128) -> Option<Claim> {
    Some(Claim {
        liability: dyadic(liability, FILL_BITS)?,
        surplus: dyadic(surplus, FILL_BITS)?,
    })
}

/// A solution in whole numbers: fills, liability and surplus in units of 2^-40, and the measure of
/// states whose settlements have the first entry 2^time.
#[derive(Clone, Copy)]
pub struct Solved<'a> {
    pub underlyings: usize,
    pub time: u32,
    pub fills: &'a [i128],
    pub liability: i128,
    pub surplus: i128,
    pub measure: &'a WholeMeasure,
}

/// The proposal of what was solved, with this cover. None where a number does not fit its fraction
/// or its state; the error is want of memory.
pub fn answer_of(
    alloc: Global,
    solved: &Solved,
    cover: ProposalCover,
) -> Result<Option<Proposal>, AllocError> {
    let Some(claim) = claim_of(solved.liability, solved.surplus) else {
        return Ok(None);
    };
    let Some(fills) = fraction_fills(alloc, solved.fills)? else {
        return Ok(None);
    };
    let Some(measure) = fraction_measure(alloc, solved.underlyings, solved.time, solved.measure)?
    else {
        return Ok(None);
    };
    Ok(Some(Proposal {
        fills,
        claim,
        cover,
        measure,
    }))
}
