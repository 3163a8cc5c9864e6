//! Quotients and remainders of natural numbers.
ghost use Rattle.std.specs.Prelude.{◌≡◌, ◌<◌, ◌*◌, ◌/◌, ◌%◌};
ghost use Rattle.std.specs.Ordering.{nat_cmp};

use std::cmp::Ordering;

/// What fits in 64 bits, where a division is several times as fast as in 128.
pub const SHORT: u128 = u64::MAX as u128;

/// A quotient rounded down, and what it leaves.
#[derive(Clone, Copy)]
pub struct Division {
    pub quotient: u128,
    pub rest: u128,
}

/// The quotient and the remainder of `a` by `b`.
pub fn divide(a: u128, b: u128) -> Division
    requires { 0 < b }
    ensures quotient { result.quotient ≡ a / b }
    ensures rest { result.rest ≡ a % b }
{
    if a <= SHORT && b <= SHORT {
        let (short, divisor) = (a as u64, b as u64);
        Division {
            quotient: (short / divisor) as u128,
            rest: (short % divisor) as u128,
        }
    } else {
        Division {
            quotient: a / b,
            rest: a % b,
        }
    }
}

/// The order of a / b and c / d: by their whole parts, and where these are equal by what they
/// leave, turned over. No product is formed, so no size is too large.
pub fn compare(mut a: u128, mut b: u128, mut c: u128, mut d: u128) -> Ordering
    requires left { 0 < b }
    requires right { 0 < d }
    ensures { result ≡ nat_cmp (a * d) (c * b) }
{
    loop {
        let left = divide(a, b);
        let right = divide(c, d);
        if left.quotient != right.quotient {
            return left.quotient.cmp(&right.quotient);
        }
        if left.rest == 0 || right.rest == 0 {
            return left.rest.cmp(&right.rest);
        }
        a = d;
        c = b;
        b = right.rest;
        d = left.rest;
    }
}
