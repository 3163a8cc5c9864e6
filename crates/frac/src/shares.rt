//! Shares of whole numbers: n * h / d, rounded down or up, where the product may have more than
//! 128 bits.
ghost use Rattle.std.specs.Prelude.{◌≡◌, ◌<◌, ◌+◌, ◌-◌, ◌*◌, ◌/◌, ◌%◌, ◌^◌};
ghost use Rattle.std.specs.Int.{div_ceil};

use crate::quotients::{Division, divide};

/// `n * h / d` rounded down.
pub fn mul_div_floor(n: u128, d: u128, h: u128) -> u128
    requires divisor { 0 < d }
    requires small_divisor { d < 2 ^ 127 }
    requires small_number { n < 2 ^ 127 }
    requires small_factor { h < 2 ^ 127 }
    requires share_fits { div_ceil (n * h) d < 2 ^ 127 }
    ensures { result ≡ n * h / d }
{
    share(n, d, h).quotient
}

/// `n * h / d` rounded up.
pub fn mul_div_ceil(n: u128, d: u128, h: u128) -> u128
    requires divisor { 0 < d }
    requires small_divisor { d < 2 ^ 127 }
    requires small_number { n < 2 ^ 127 }
    requires small_factor { h < 2 ^ 127 }
    requires share_fits { div_ceil (n * h) d < 2 ^ 127 }
    ensures { result ≡ div_ceil (n * h) d }
{
    let part = share(n, d, h);
    if part.rest == 0 {
        part.quotient
    } else {
        part.quotient + 1
    }
}

/// The quotient and the remainder of `n * h` by `d`.
fn share(n: u128, d: u128, h: u128) -> Division
    requires divisor { 0 < d }
    requires small_divisor { d < 2 ^ 127 }
    requires small_factor { h < 2 ^ 127 }
    requires share_fits { n * h / d < 2 ^ 127 }
    ensures quotient { result.quotient ≡ n * h / d }
    ensures rest { result.rest ≡ (n * h) % d }
{
    match n.checked_mul(h) {
        Some(product) => divide(product, d),
        None => share_by_bits(divide(n, d), d, h),
    }
}

/// The share of a number that is given by its quotient and remainder, bit by bit of `h` from the
/// highest on: what is there is doubled, and where the bit is set the number is added once.
fn share_by_bits(number: Division, d: u128, h: u128) -> Division
    requires small_divisor { d < 2 ^ 127 }
    requires rest { number.rest < d }
    requires small_factor { h < 2 ^ 127 }
    requires share_fits { (number.quotient * d + number.rest) * h / d < 2 ^ 127 }
    ensures quotient { result.quotient ≡ (number.quotient * d + number.rest) * h / d }
    ensures rest { result.rest ≡ ((number.quotient * d + number.rest) * h) % d }
{
    let mut part = Division {
        quotient: 0,
        rest: 0,
    };
    let mut bits: u32 = 127;
    while bits > 0 {
        bits -= 1;
        let doubled = sum(part, part, d);
        part = if (h >> bits) % 2 == 1 {
            sum(doubled, number, d)
        } else {
            doubled
        };
    }
    part
}

/// The sum of two numbers that are given by their quotients and remainders.
fn sum(x: Division, y: Division, d: u128) -> Division
    requires small_divisor { d < 2 ^ 127 }
    requires left { x.rest < d }
    requires right { y.rest < d }
    requires sum_fits { x.quotient + y.quotient < 2 ^ 127 }
    ensures value { result.quotient * d + result.rest
        ≡ (x.quotient * d + x.rest) + (y.quotient * d + y.rest) }
    ensures rest { result.rest < d }
{
    let rest = x.rest + y.rest;
    if rest < d {
        Division {
            quotient: x.quotient + y.quotient,
            rest,
        }
    } else {
        Division {
            quotient: x.quotient + y.quotient + 1,
            rest: rest - d,
        }
    }
}
