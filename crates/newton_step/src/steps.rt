//! Whole steps along a line.
ghost use Rattle.std.specs.Prelude.{◌≡◌, ◌<◌, ◌≤◌, ◌+◌, ◌*◌, ◌/◌, ◌^◌, min};
ghost use Rattle.exact_num.specs.Fraction.{IsNotBelowZero};
ghost use Rattle.frac.specs.Value.{fraction_of};
ghost use Rattle.newton_step.specs.Step.{whole_steps};

use crate::differences::{divided_product, scaled_difference, split};
use exact_num::Exact;
use frac::Frac128;
use frac::quotients::{Division, divide};

/// `(number.quotient * factor + number.rest) / divisor` rounded down, and at most `most`.
fn quotient_within(number: Division, factor: u128, divisor: u128, most: u64) -> u64
    requires rest { number.rest < factor }
    requires factor { factor < 2 ^ 127 }
    requires divisor { (1 ≤ divisor) × (divisor < 2 ^ 127) }
    ensures { result ≡ min ((number.quotient * factor + number.rest) / divisor) most }
{
    let wholes = divide(number.quotient, divisor);
    let part = divided_product(wholes.rest, divisor, factor);
    let last = divide(part.rest + number.rest, divisor);
    let quotient = wholes
        .quotient
        .saturating_mul(factor)
        .saturating_add(part.quotient)
        .saturating_add(last.quotient);
    quotient.min(most as u128) as u64
}

/// By how many whole steps a line with this slope is followed down from the value until it is at
/// the level: `(value - level) / slope` rounded down, whatever the sizes of these numbers, and at
/// most `most`. It is 0 where the value is below the level or the slope is not above 0.
pub fn whole_steps(value: Frac128, level: Frac128, slope: Frac128, most: u64) -> u64
    requires { IsNotBelowZero (fraction_of level) }
    ensures { result
        ≡ min (whole_steps (fraction_of value) (fraction_of level) (fraction_of slope)) most }
{
    if value < level || slope.sign() <= 0 {
        return 0;
    }
    let (above, below) = slope.parts();
    let factor = below.unsigned_abs();
    let above_level = scaled_difference(split(value), split(level), factor);
    quotient_within(above_level, factor, above.unsigned_abs(), most)
}
