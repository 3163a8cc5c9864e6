//! A fill times an amount of whole ticks for each bundle, rounded to whole ticks.

ghost use Rattle.std.specs.Prelude.{◌≡◌, ◌^◌, ◌<◌, ◌≤◌, ◌≤ℤ◌, pos};
ghost use Rattle.exact_num.specs.Fraction.{AtMost, plain_product, whole};
ghost use Rattle.frac.specs.Value.{fraction_of};
ghost use Rattle.limits.specs.declared.TheConstants.{MAX_GAIN};
ghost use Rattle.settlement.specs.Premium.{rounded_down, rounded_up};

use exact_num::Exact;
use frac::{Frac128, mul_div_ceil, mul_div_floor};

/// The fill times the ticks, rounded up.
pub(crate) fn rounded_up(fill: &Frac128, ticks: u128) -> u64
    requires not_below_zero { pos 0 ≤ℤ (fraction_of fill.now).numerator }
    requires small { ticks < 2 ^ 127 }
    requires few { AtMost (plain_product (fraction_of fill.now) (whole (pos ticks)))
        (whole (pos MAX_GAIN)) }
    ensures value { result ≡ rounded_up (fraction_of fill.now) ticks }
    ensures fits { result ≤ MAX_GAIN }
{
    let (numerator, denominator) = fill.parts();
    mul_div_ceil(numerator.unsigned_abs(), denominator.unsigned_abs(), ticks) as u64
}

/// The fill times the ticks, rounded down.
pub(crate) fn rounded_down(fill: &Frac128, ticks: u128) -> u64
    requires not_below_zero { pos 0 ≤ℤ (fraction_of fill.now).numerator }
    requires small { ticks < 2 ^ 127 }
    requires few { AtMost (plain_product (fraction_of fill.now) (whole (pos ticks)))
        (whole (pos MAX_GAIN)) }
    ensures value { result ≡ rounded_down (fraction_of fill.now) ticks }
    ensures fits { result ≤ MAX_GAIN }
{
    let (numerator, denominator) = fill.parts();
    mul_div_floor(numerator.unsigned_abs(), denominator.unsigned_abs(), ticks) as u64
}
