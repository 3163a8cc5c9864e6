//! Products of fractions within a limit, for both widths, and inverses.
ghost use Rattle.std.specs.Prelude.{◌≡◌, ◌≢◌, ◌<◌, ◌^◌, ◌*◌, ◌&&◌, pos, ◌*ℤ◌, nat_lt, unsigned_abs};
ghost use Rattle.std.specs.Option.{option_map};
ghost use Rattle.exact_num.specs.Fits.{product_above, product_below, inverse, product_within};
ghost use Rattle.frac.specs.Value.{fraction_of};

use crate::frac128::Frac128;
use crate::quotients::SHORT;
use crate::sizes::{
    common, natural_product, natural_quotient, quotient, short_divisor, short_quotient,
    whole_product, with_sign_of,
};

/// Whether both parts are of 64 bits.
#[inline(always)]
fn is_short(x: Frac128) -> bool
    ensures { result
        ≡ nat_lt (unsigned_abs x.numerator) (2 ^ 64) && nat_lt x.denominator (2 ^ 64) }
{
    x.numerator.unsigned_abs() <= SHORT && x.denominator <= SHORT
}

/// Two fractions, neither numerator having a divisor in common with the other's denominator.
#[derive(Clone, Copy)]
struct Factors {
    numerators: (i128, i128),
    denominators: (u128, u128),
}

/// The parts of the two fractions, each numerator and the other's denominator without what they
/// have in common, where all are of 64 bits.
#[inline(always)]
fn short_factors(x: Frac128, y: Frac128) -> Factors
    requires left { (unsigned_abs x.numerator < 2 ^ 64) × (x.denominator < 2 ^ 64) }
    requires right { (unsigned_abs y.numerator < 2 ^ 64) × (y.denominator < 2 ^ 64) }
    ensures above { result.numerators.0 *ℤ result.numerators.1
        ≡ product_above (fraction_of x) (fraction_of y) }
    ensures below { result.denominators.0 * result.denominators.1
        ≡ product_below (fraction_of x) (fraction_of y) }
{
    let a = x.numerator.unsigned_abs() as u64;
    let b = x.denominator as u64;
    let c = y.numerator.unsigned_abs() as u64;
    let d = y.denominator as u64;
    let g = short_divisor(a, d);
    let h = short_divisor(c, b);
    Factors {
        numerators: (
            with_sign_of(x.numerator, short_quotient(a, g) as u128),
            with_sign_of(y.numerator, short_quotient(c, h) as u128),
        ),
        denominators: (short_quotient(b, h) as u128, short_quotient(d, g) as u128),
    }
}

/// The parts of the two fractions, each numerator and the other's denominator without what they
/// have in common: their products are those of a product in lowest terms.
#[inline(always)]
fn reduced_factors(x: Frac128, y: Frac128) -> Factors
    ensures above { result.numerators.0 *ℤ result.numerators.1
        ≡ product_above (fraction_of x) (fraction_of y) }
    ensures below { result.denominators.0 * result.denominators.1
        ≡ product_below (fraction_of x) (fraction_of y) }
{
    if is_short(x) && is_short(y) {
        return short_factors(x, y);
    }
    let g = common(x.numerator, y.denominator);
    let h = common(y.numerator, x.denominator);
    Factors {
        numerators: (quotient(x.numerator, g), quotient(y.numerator, h)),
        denominators: (
            natural_quotient(x.denominator, h),
            natural_quotient(y.denominator, g),
        ),
    }
}

/// The product of two whole numbers.
#[inline(always)]
fn product_of_wholes(x: Frac128, y: Frac128, limit: u128) -> Option<Frac128>
    requires left { x.denominator ≡ 1 }
    requires right { y.denominator ≡ 1 }
    requires positive_limit { 0 < limit }
    requires signed_limit { limit < 2 ^ 127 }
    ensures { option_map fraction_of result
        ≡ product_within limit (fraction_of x) (fraction_of y) }
{
    let above = whole_product(x.numerator, y.numerator, limit)?;
    Some(Frac128 {
        numerator: above,
        denominator: 1,
    })
}

/// The product in lowest terms, where each of its quantities is within the limit.
#[inline(always)]
pub fn product(x: Frac128, y: Frac128, limit: u128) -> Option<Frac128>
    requires positive_limit { 0 < limit }
    requires signed_limit { limit < 2 ^ 127 }
    ensures { option_map fraction_of result
        ≡ product_within limit (fraction_of x) (fraction_of y) }
{
    if x.denominator == 1 && y.denominator == 1 {
        return product_of_wholes(x, y, limit);
    }
    let factors = reduced_factors(x, y);
    let above = whole_product(factors.numerators.0, factors.numerators.1, limit)?;
    let below = natural_product(factors.denominators.0, factors.denominators.1, limit)?;
    Some(Frac128 {
        numerator: above,
        denominator: below,
    })
}

/// One divided by the fraction.
#[inline(always)]
pub fn reciprocal(x: Frac128) -> Frac128
    requires { x.numerator ≢ pos 0 }
    ensures { fraction_of result ≡ inverse (fraction_of x) }
{
    Frac128 {
        numerator: with_sign_of(x.numerator, x.denominator),
        denominator: x.numerator.unsigned_abs(),
    }
}
