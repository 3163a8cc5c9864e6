//! The liability on one underlying, from the exact breakpoints.

use near_programs::numbers::plus_product;
use near_programs::points::{NearState, payoff};
use near_programs::rounding::leg_fill;
use near_programs::{Book, NearLeg};

// A state of one underlying.
fn line_state(first: i128, price: i128) -> NearState {
    let mut entries = [0i128; 9];
    entries[0] = first;
    entries[1] = price;
    NearState { entries }
}

// What the market owes at a state, where it fits.
fn owed(book: &Book, fills: &[i128], state: &NearState) -> Option<i128> {
    let mut total = 0i128;
    for leg in book.legs.iter() {
        let fill = leg_fill(leg, fills);
        let signed = if leg.is_long {
            fill
        } else {
            0i128.saturating_sub(fill)
        };
        total = plus_product(total, signed, payoff(&leg.entries, state))?;
    }
    Some(total)
}

// The quotient, rounded up.
fn quotient_up(above: i128, below: i128) -> i128 {
    if below <= 0 {
        return above;
    }
    let whole = above.div_euclid(below);
    if above.rem_euclid(below) == 0 {
        whole
    } else {
        whole.saturating_add(1)
    }
}

// The exact state at which a leg's option begins or ends to pay.
fn exact_bend(leg: &NearLeg) -> Option<NearState> {
    let strike = i128::from(leg.entries[0]);
    let weight = i128::from(leg.entries[1]);
    if strike == 0 || weight == 0 || (strike > 0) == (weight > 0) {
        return None;
    }
    Some(line_state(weight.saturating_abs(), strike.saturating_abs()))
}

/// The least liability of these fills, in their units; None where no liability covers them, or a
/// sum does not fit.
pub fn line_liability(book: &Book, fills: &[i128]) -> Option<i128> {
    if owed(book, fills, &line_state(0, 1))? > 0 {
        return None;
    }
    let mut most = owed(book, fills, &line_state(1, 0))?;
    for leg in book.legs.iter() {
        if let Some(state) = exact_bend(leg) {
            let total = owed(book, fills, &state)?;
            most = most.max(quotient_up(total, state.entries[0]));
        }
    }
    Some(most)
}
