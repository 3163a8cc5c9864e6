//! Sums and products of fractions whose parts are of 31 bits: what is made of their parts is
//! divided once, at the end.
ghost use Rattle.std.specs.Prelude.{◌≡◌, ◌<◌, ◌^◌, ◌&&◌, pos, nat_lt, int_div, unsigned_abs};
ghost use Rattle.exact_num.specs.Fraction.{negated, reduced as reduced_of};
ghost use Rattle.exact_num.specs.Fits.{product_value, sum_value};
ghost use Rattle.frac.specs.Range.{IsSmall};
ghost use Rattle.frac.specs.Value.{fraction_of};

use crate::frac128::Frac128;
use crate::sizes::{common, natural_quotient, quotient, short_divisor, short_quotient};
use exact_num::Exact;

// The largest part of a small fraction.
const SMALL: i128 = i32::MAX as i128;

// The largest signed number of 64 bits.
const SHORT_SIGNED: i128 = i64::MAX as i128;

/// Whether both parts are of 31 bits.
#[inline(always)]
pub fn is_small(x: Frac128) -> bool
    ensures { result
        ≡ nat_lt (unsigned_abs x.numerator) (2 ^ 31) && nat_lt x.denominator (2 ^ 31) }
{
    -SMALL <= x.numerator && x.numerator <= SMALL && x.denominator <= SMALL as u128
}

/// The quotient, rounded toward zero.
#[inline(always)]
fn signed_quotient(a: i64, b: u64) -> i64
    requires positive { 0 < b }
    requires in_range { b < 2 ^ 63 }
    ensures { result ≡ int_div a (pos b) }
{
    if b == 1 { a } else { a / b as i64 }
}

/// The fraction n / d in lowest terms.
#[inline(always)]
fn short_reduced(n: i64, d: u64) -> Frac128
    requires positive { 0 < d }
    requires in_range { d < 2 ^ 63 }
    ensures { fraction_of result ≡ reduced_of n d }
{
    if n == 0 {
        return Frac128::zero();
    }
    let shared = short_divisor(n.unsigned_abs(), d);
    Frac128 {
        numerator: signed_quotient(n, shared) as i128,
        denominator: short_quotient(d, shared) as u128,
    }
}

/// The same of numbers of 128 bits.
#[inline(never)]
fn long_reduced(n: i128, d: u128) -> Frac128
    requires above { unsigned_abs n < 2 ^ 127 }
    requires positive { 0 < d }
    requires in_range { d < 2 ^ 127 }
    ensures { fraction_of result ≡ reduced_of n d }
{
    let shared = common(n, d);
    Frac128 {
        numerator: quotient(n, shared),
        denominator: natural_quotient(d, shared),
    }
}

/// The same: in 64 bits where it can be.
#[inline(always)]
fn reduced(n: i128, d: u128) -> Frac128
    requires above { unsigned_abs n < 2 ^ 127 }
    requires positive { 0 < d }
    requires in_range { d < 2 ^ 127 }
    ensures { fraction_of result ≡ reduced_of n d }
{
    if -SHORT_SIGNED <= n && n <= SHORT_SIGNED && d <= SHORT_SIGNED as u128 {
        short_reduced(n as i64, d as u64)
    } else {
        long_reduced(n, d)
    }
}

/// The product in lowest terms.
#[inline(always)]
pub fn small_product(x: Frac128, y: Frac128) -> Frac128
    requires left { IsSmall (fraction_of x) }
    requires right { IsSmall (fraction_of y) }
    ensures { fraction_of result ≡ product_value (fraction_of x) (fraction_of y) }
{
    let above = x.numerator as i64 * y.numerator as i64;
    let below = x.denominator as u64 * y.denominator as u64;
    short_reduced(above, below)
}

/// The sum of two fractions over two denominators, in lowest terms: by what these have in common,
/// which is mostly 1.
#[inline(always)]
fn small_sum_over_two(x: Frac128, y: Frac128) -> Frac128
    requires left { IsSmall (fraction_of x) }
    requires right { IsSmall (fraction_of y) }
    ensures { fraction_of result ≡ sum_value (fraction_of x) (fraction_of y) }
{
    let (a, b) = (x.numerator as i64, x.denominator as u64);
    let (c, d) = (y.numerator as i64, y.denominator as u64);
    let g = short_divisor(b, d);
    let left = short_quotient(b, g);
    let total = a * short_quotient(d, g) as i64 + c * left as i64;
    let shared = short_divisor(total.unsigned_abs(), g);
    Frac128 {
        numerator: signed_quotient(total, shared) as i128,
        denominator: (left * short_quotient(d, shared)) as u128,
    }
}

/// The sum of two fractions over one denominator, in lowest terms.
#[inline(always)]
fn small_sum_over_one(x: Frac128, y: Frac128) -> Frac128
    requires same { x.denominator ≡ y.denominator }
    requires left { IsSmall (fraction_of x) }
    requires right { IsSmall (fraction_of y) }
    ensures { fraction_of result ≡ sum_value (fraction_of x) (fraction_of y) }
{
    let denominator = x.denominator as u64;
    let total = x.numerator as i64 + y.numerator as i64;
    let shared = short_divisor(total.unsigned_abs(), denominator);
    Frac128 {
        numerator: signed_quotient(total, shared) as i128,
        denominator: short_quotient(denominator, shared) as u128,
    }
}

/// The sum in lowest terms.
#[inline(always)]
pub fn small_sum(x: Frac128, y: Frac128) -> Frac128
    requires left { IsSmall (fraction_of x) }
    requires right { IsSmall (fraction_of y) }
    ensures { fraction_of result ≡ sum_value (fraction_of x) (fraction_of y) }
{
    if x.denominator == y.denominator {
        small_sum_over_one(x, y)
    } else {
        small_sum_over_two(x, y)
    }
}

/// The number less the product, in lowest terms.
#[inline(always)]
pub fn small_less_product(x: Frac128, y: Frac128, z: Frac128) -> Frac128
    requires number { IsSmall (fraction_of x) }
    requires left { IsSmall (fraction_of y) }
    requires right { IsSmall (fraction_of z) }
    ensures { fraction_of result ≡ sum_value (fraction_of x)
        (negated (product_value (fraction_of y) (fraction_of z))) }
{
    let above = y.numerator as i64 * z.numerator as i64;
    let below = y.denominator as u64 * z.denominator as u64;
    let total = x.numerator * below as i128 - above as i128 * x.denominator as i128;
    reduced(total, x.denominator * below as u128)
}
