//! Differences of numbers that are not below 0, each a whole number and a fraction below 1.
ghost use Rattle.std.specs.Prelude.{◌≡◌, ◌<◌, ◌≤◌, ◌+◌, ◌*◌, ◌/◌, ◌^◌};
ghost use Rattle.arithmetic.specs.Sums.{positive_part};
ghost use Rattle.exact_num.specs.Fraction.{IsNotBelowZero};
ghost use Rattle.frac.specs.Value.{fraction_of};

use exact_num::Exact;
use frac::quotients::{Division, compare, divide};
use frac::{Frac128, mul_div_floor};
use std::cmp::Ordering;

/// `whole + above / below`, where the fraction is below 1.
#[derive(Clone, Copy)]
pub(crate) struct Mixed {
    pub(crate) whole: u128,
    pub(crate) above: u128,
    pub(crate) below: u128,
}

/// The fraction as a mixed number.
pub(crate) fn split(x: Frac128) -> Mixed
    requires { IsNotBelowZero (fraction_of x) }
    ensures above { result.whole * result.below + result.above
        ≡ positive_part (fraction_of x).numerator }
    ensures below { result.below ≡ (fraction_of x).denominator }
    ensures part { result.above < result.below }
    ensures small { result.below < 2 ^ 127 }
{
    let (numerator, denominator) = x.parts();
    let below = denominator.unsigned_abs();
    let Division { quotient, rest } = divide(numerator.unsigned_abs(), below);
    Mixed {
        whole: quotient,
        above: rest,
        below,
    }
}

/// The quotient and the remainder of `n * h` by `d`, where the product may have more than 128 bits.
pub(crate) fn divided_product(n: u128, d: u128, h: u128) -> Division
    requires part { n < d }
    requires small_divisor { d < 2 ^ 127 }
    requires small_factor { h < 2 ^ 127 }
    ensures value { result.quotient * d + result.rest ≡ n * h }
    ensures rest { result.rest < d }
{
    let quotient = mul_div_floor(n, d, h);
    // The lowest 128 bits tell what is left.
    let rest = n.wrapping_mul(h).wrapping_sub(quotient.wrapping_mul(d));
    Division { quotient, rest }
}

/// What is carried from the difference of two fractions below 1, `a / b - c / d`, to make it one
/// that is not below 0.
fn carried(a: u128, b: u128, c: u128, d: u128) -> u128
    requires left { a < b }
    requires right { c < d }
    ensures once { result ≤ 1 }
    ensures not_below { c * b ≤ a * d + result * (b * d) }
    ensures below { a * d + result * (b * d) < c * b + b * d }
{
    match compare(a, b, c, d) {
        Ordering::Less => 1,
        Ordering::Equal | Ordering::Greater => 0,
    }
}

/// `(x * factor + added) - (y * factor + taken)` by the factor.
fn difference(x: u128, y: u128, added: u128, taken: u128, factor: u128) -> Division
    requires factor { factor < 2 ^ 127 }
    requires added { added < factor }
    requires taken { taken ≤ factor }
    requires ordered { y * factor + taken ≤ x * factor + added }
    ensures value { result.quotient * factor + result.rest + (y * factor + taken)
        ≡ x * factor + added }
    ensures rest { result.rest < factor }
{
    if taken <= added {
        Division {
            quotient: x - y,
            rest: added - taken,
        }
    } else {
        Division {
            quotient: x - y - 1,
            rest: added + factor - taken,
        }
    }
}

/// `factor * (x - y)` rounded down, as so many times the factor and what is left.
pub(crate) fn scaled_difference(x: Mixed, y: Mixed, factor: u128) -> Division
    requires left { (x.above < x.below) × (x.below < 2 ^ 127) }
    requires right { (y.above < y.below) × (y.below < 2 ^ 127) }
    requires factor { (1 ≤ factor) × (factor < 2 ^ 127) }
    requires ordered { (y.whole * y.below + y.above) * x.below
        ≤ (x.whole * x.below + x.above) * y.below }
    ensures rest { result.rest < factor }
    ensures down { (result.quotient * factor + result.rest) * (x.below * y.below)
        + factor * ((y.whole * y.below + y.above) * x.below)
        ≤ factor * ((x.whole * x.below + x.above) * y.below) }
    ensures next { factor * ((x.whole * x.below + x.above) * y.below)
        < (result.quotient * factor + result.rest + 1) * (x.below * y.below)
        + factor * ((y.whole * y.below + y.above) * x.below) }
{
    let added = divided_product(x.above, x.below, factor);
    let taken = divided_product(y.above, y.below, factor);
    let carry = carried(added.rest, x.below, taken.rest, y.below);
    difference(
        x.whole,
        y.whole,
        added.quotient,
        taken.quotient + carry,
        factor,
    )
}
