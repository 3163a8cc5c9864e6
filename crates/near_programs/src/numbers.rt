//! Whole numbers and floats.

use std::num::{nearest_i64_to_f64, saturating_f64_to_i64};

// 2^62, where a whole number is cut in two.
const CUT: i128 = 4611686018427387904;

const CUT_AS_FLOAT: f64 = 4611686018427387904.0;

/// 2 to this power; the greatest number past what fits.
pub fn two_to(bits: u32) -> i128 {
    if bits < 126 { 1 << bits } else { i128::MAX }
}

// The float nearest to a number of 64 bits.
fn float_of_part(number: i128) -> f64 {
    match i64::try_from(number) {
        Ok(part) => nearest_i64_to_f64(part),
        Err(_) => 0.0,
    }
}

/// A float near a whole number.
pub fn float_of(number: i128) -> f64 {
    let high = number.div_euclid(CUT);
    let low = number.rem_euclid(CUT);
    if high == 0 || high == -1 {
        return float_of_part(number);
    }
    float_of_part(high) * CUT_AS_FLOAT + float_of_part(low)
}

/// A whole number near a float.
pub fn nearest_whole(number: f64) -> i128 {
    let high = (number / CUT_AS_FLOAT).trunc();
    let low = (number - high * CUT_AS_FLOAT).round();
    i128::from(saturating_f64_to_i64(high))
        .saturating_mul(CUT)
        .saturating_add(i128::from(saturating_f64_to_i64(low)))
}

/// The number of bits that the numbers below this one take.
pub fn bits_of(number: i128) -> u32 {
    let mut bits = 0u32;
    let mut power = 1i128;
    for _ in 0..126 {
        if power >= number {
            return bits;
        }
        power = power.saturating_mul(2);
        bits = bits.saturating_add(1);
    }
    bits
}

/// The whole number at a place, and 0 past the end.
pub fn whole_at(numbers: &[i128], place: usize) -> i128 {
    match numbers.get(place) {
        Some(number) => *number,
        None => 0,
    }
}

/// Puts a whole number at a place of a list that has one.
pub fn set_whole(numbers: &mut [i128], place: usize, number: i128) {
    if let Some(old) = numbers.get_mut(place) {
        *old = number;
    }
}

/// Adds to the whole number at a place of a list that has one, as far as it fits.
pub fn add_whole(numbers: &mut [i128], place: usize, number: i128) {
    if let Some(old) = numbers.get_mut(place) {
        *old = (*old).saturating_add(number);
    }
}

/// The total and a product, where both fit.
pub fn plus_product(total: i128, left: i128, right: i128) -> Option<i128> {
    total.checked_add(left.checked_mul(right)?)
}
