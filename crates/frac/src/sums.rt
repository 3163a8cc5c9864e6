//! Sums of fractions within a limit, for both widths.
ghost use Rattle.std.specs.Prelude.{◌≡◌, ◌<◌, ◌/◌, ◌^◌, pos, ◌*ℤ◌};
ghost use Rattle.std.specs.Option.{option_map};
ghost use Rattle.exact_num.specs.Fits.{sum_divisor, sum_within};
ghost use Rattle.exact_num.specs.Laws.{IsWithin};
ghost use Rattle.frac.specs.Range.{within, total_within};
ghost use Rattle.frac.specs.Value.{fraction_of};

use crate::frac128::Frac128;
use crate::sizes::{
    common, divisor, natural_product, natural_quotient, product_with, quotient, whole_sum,
};

/// The numerator of `x` over the least common denominator with `y`, where it is within the limit.
/// `g` is the greatest common divisor of the denominators.
#[inline(always)]
fn numerator_over(x: Frac128, y: Frac128, g: u128, limit: u128) -> Option<i128>
    requires positive { 0 < g }
    requires signed_limit { limit < 2 ^ 127 }
    ensures { result ≡ within limit (x.numerator *ℤ pos (y.denominator / g)) }
{
    product_with(x.numerator, natural_quotient(y.denominator, g), limit)
}

/// The sum of the numerators over the least common denominator, where its steps are within the
/// limit.
#[inline(always)]
fn total(x: Frac128, y: Frac128, g: u128, limit: u128) -> Option<i128>
    requires divisor { g ≡ sum_divisor (fraction_of x) (fraction_of y) }
    requires positive { 0 < g }
    requires signed_limit { limit < 2 ^ 127 }
    ensures { result ≡ total_within limit (fraction_of x) (fraction_of y) }
{
    let left = numerator_over(x, y, g, limit)?;
    let right = numerator_over(y, x, g, limit)?;
    whole_sum(left, right, limit)
}

/// The sum of two fractions over one denominator, such as whole numbers: nothing is divided but by
/// what the numerator shares with it.
#[inline(always)]
fn sum_over_one(x: Frac128, y: Frac128, limit: u128) -> Option<Frac128>
    requires same { x.denominator ≡ y.denominator }
    requires left_within { IsWithin limit (fraction_of x) }
    requires right_within { IsWithin limit (fraction_of y) }
    requires signed_limit { limit < 2 ^ 127 }
    ensures { option_map fraction_of result ≡ sum_within limit (fraction_of x) (fraction_of y) }
{
    let above = whole_sum(x.numerator, y.numerator, limit)?;
    let shared = common(above, x.denominator);
    Some(Frac128 {
        numerator: quotient(above, shared),
        denominator: natural_quotient(x.denominator, shared),
    })
}

/// The sum in lowest terms, where each of its quantities is within the limit.
#[inline(always)]
pub fn sum(x: Frac128, y: Frac128, limit: u128) -> Option<Frac128>
    requires left { IsWithin limit (fraction_of x) }
    requires right { IsWithin limit (fraction_of y) }
    requires signed_limit { limit < 2 ^ 127 }
    ensures { option_map fraction_of result ≡ sum_within limit (fraction_of x) (fraction_of y) }
{
    if x.denominator == y.denominator {
        return sum_over_one(x, y, limit);
    }
    let g = divisor(x.denominator, y.denominator);
    let above = total(x, y, g, limit)?;
    let shared = common(above, g);
    let below = natural_product(
        natural_quotient(x.denominator, g),
        natural_quotient(y.denominator, shared),
        limit,
    )?;
    Some(Frac128 {
        numerator: quotient(above, shared),
        denominator: below,
    })
}
