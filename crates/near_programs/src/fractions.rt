//! Fractions whose denominators are powers of two, and how long they are as they are written.

use crate::numbers::two_to;
use exact_num::Exact;
use frac::Frac128;

/// So many units of 2^-bits. None where that does not fit.
pub fn dyadic(units: i128, bits: u32) -> Option<Frac128> {
    let above = Frac128::from_whole(units).ok()?;
    let below = Frac128::from_whole(two_to(bits)).ok()?;
    if below.sign() == 0 {
        return None;
    }
    above.div(below).ok()
}

/// The number of what stands at a place, counted from 1.
pub fn number_of(place: usize) -> u32 {
    u32::try_from(place.saturating_add(1)).unwrap_or(0)
}

/// How many digits a number from 0 on has.
pub fn digits(number: i128) -> usize {
    let mut count = 1usize;
    let mut power = 10i128;
    for _ in 0..37 {
        if number < power {
            break;
        }
        power = power.saturating_mul(10);
        count = count.saturating_add(1);
    }
    count
}

/// The bytes of a fraction from 0 on.
pub fn bytes_of(number: Frac128) -> usize {
    let (above, below) = number.parts();
    if below == 1 {
        return digits(above);
    }
    digits(above)
        .saturating_add(digits(below))
        .saturating_add(1)
}
