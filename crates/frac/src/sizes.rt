//! Whole numbers of at most a limit in size: what is above it is None.
//!
//! Where all numbers fit in 64 bits, nothing is divided in 128. All is compiled anew where it is
//! called, since the limit and the width of the operands are known there.
ghost use Rattle.std.specs.Prelude.{◌≡◌, ◌<◌, ◌≤◌, ◌*◌, ◌/◌, ◌^◌, pos, ◌+ℤ◌, ◌*ℤ◌, unsigned_abs, int_div};
ghost use Rattle.arithmetic.specs.Gcd.{gcd as gcd_of};
ghost use Rattle.exact_num.specs.Fits.{size_fits, signed_by};
ghost use Rattle.frac.specs.Range.{within, within_natural};

use crate::quotients::SHORT;
use exact_num::{gcd, gcd_of_short};

/// Whether the size of `v` is at most the limit.
#[inline(always)]
pub fn is_in_range(v: i128, limit: u128) -> bool
    ensures { result ≡ size_fits limit v }
{
    v.unsigned_abs() <= limit
}

/// The greatest common divisor of numbers that are in range. Most denominators are 1 or equal.
#[inline(always)]
pub fn divisor(a: u128, b: u128) -> u128
    requires positive { 0 < b }
    requires in_range { b < 2 ^ 127 }
    ensures value { result ≡ gcd_of a b }
    ensures above_zero { 0 < result }
    ensures small { result < 2 ^ 127 }
{
    if a == b {
        b
    } else if a == 1 || b == 1 {
        1
    } else if a <= SHORT && b <= SHORT {
        short_divisor(a as u64, b as u64) as u128
    } else {
        gcd(a, b)
    }
}

/// The same of numbers of 64 bits: the type says that what is divided by it is as short.
#[inline(always)]
pub fn short_divisor(a: u64, b: u64) -> u64
    requires { 0 < b }
    ensures value { result ≡ gcd_of a b }
    ensures above_zero { 0 < result }
    ensures small { result ≤ b }
{
    if a == 1 || b == 1 {
        1
    } else {
        gcd_of_short(a, b)
    }
}

/// The greatest common divisor of the size of `n` and `d`.
#[inline(always)]
pub fn common(n: i128, d: u128) -> u128
    requires positive { 0 < d }
    requires in_range { d < 2 ^ 127 }
    ensures value { result ≡ gcd_of (unsigned_abs n) d }
    ensures above_zero { 0 < result }
    ensures small { result < 2 ^ 127 }
{
    divisor(n.unsigned_abs(), d)
}

/// The quotient, rounded down.
#[inline(always)]
pub fn natural_quotient(a: u128, b: u128) -> u128
    requires { 0 < b }
    ensures { result ≡ a / b }
{
    if b == 1 {
        a
    } else if a <= SHORT && b <= SHORT {
        short_quotient(a as u64, b as u64) as u128
    } else {
        a / b
    }
}

/// The quotient of numbers of 64 bits, rounded down.
#[inline(always)]
pub fn short_quotient(a: u64, b: u64) -> u64
    requires { 0 < b }
    ensures { result ≡ a / b }
{
    if b == 1 { a } else { a / b }
}

/// The quotient, rounded toward zero.
#[inline(always)]
pub fn quotient(a: i128, b: u128) -> i128
    requires positive { 0 < b }
    requires in_range { b < 2 ^ 127 }
    ensures { result ≡ int_div a (pos b) }
{
    if b == 1 {
        a
    } else {
        with_sign_of(a, natural_quotient(a.unsigned_abs(), b))
    }
}

/// The product where it is at most the limit.
#[inline(always)]
pub fn natural_product(a: u128, b: u128, limit: u128) -> Option<u128>
    ensures { result ≡ within_natural limit (a * b) }
{
    let product = if a <= SHORT && b <= SHORT {
        a * b
    } else {
        a.checked_mul(b)?
    };
    if product <= limit {
        Some(product)
    } else {
        None
    }
}

/// The product where it is at most the limit in size.
#[inline(always)]
pub fn product_with(a: i128, b: u128, limit: u128) -> Option<i128>
    requires factor { b < 2 ^ 127 }
    requires signed_limit { limit < 2 ^ 127 }
    ensures { result ≡ within limit (a *ℤ pos b) }
{
    let size = natural_product(a.unsigned_abs(), b, limit)?;
    Some(with_sign_of(a, size))
}

/// The product where it is at most the limit in size.
#[inline(always)]
pub fn whole_product(a: i128, b: i128, limit: u128) -> Option<i128>
    requires { limit < 2 ^ 127 }
    ensures { result ≡ within limit (a *ℤ b) }
{
    let size = natural_product(a.unsigned_abs(), b.unsigned_abs(), limit)?;
    Some(if (a < 0) == (b < 0) {
        size as i128
    } else {
        -(size as i128)
    })
}

/// The sum where it is at most the limit in size.
#[inline(always)]
pub fn whole_sum(a: i128, b: i128, limit: u128) -> Option<i128>
    requires { limit < 2 ^ 127 }
    ensures { result ≡ within limit (a +ℤ b) }
{
    match a.checked_add(b) {
        Some(sum) if is_in_range(sum, limit) => Some(sum),
        _ => None,
    }
}

/// `size`, or where `n` is below 0 its opposite.
#[inline(always)]
pub fn with_sign_of(n: i128, size: u128) -> i128
    requires { size < 2 ^ 127 }
    ensures { result ≡ signed_by n (pos size) }
{
    let whole = size as i128;
    if n < 0 { -whole } else { whole }
}
