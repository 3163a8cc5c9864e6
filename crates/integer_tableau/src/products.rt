//! Products of two numbers of 128 bits, in two words.
ghost use Rattle.std.specs.Prelude.{◌≡◌, ◌+◌, ◌*◌, ◌/◌, ◌%◌, ◌^◌, ◌<◌};
ghost use Rattle.std.specs.Ordering.{nat_cmp};

use std::cmp::Ordering;

// What a word of 64 bits counts up to.
const HALF: u128 = 1 << 64;

/// The product in two words, the higher first.
fn product_words(a: u128, b: u128) -> (u128, u128)
    ensures product { result.0 * 2 ^ 128 + result.1 ≡ a * b }
    ensures low { result.1 < 2 ^ 128 }
{
    let (high_a, low_a) = (a / HALF, a % HALF);
    let (high_b, low_b) = (b / HALF, b % HALF);
    let low = low_a * low_b;
    let first = high_a * low_b + low / HALF;
    let second = low_a * high_b + first % HALF;
    let high = high_a * high_b + first / HALF + second / HALF;
    (high, second % HALF * HALF + low % HALF)
}

/// How `a` times `b` compares with `c` times `d`.
pub fn compare_products(a: u128, b: u128, c: u128, d: u128) -> Ordering
    ensures { result ≡ nat_cmp (a * b) (c * d) }
{
    let (high, low) = product_words(a, b);
    let (other_high, other_low) = product_words(c, d);
    match high.cmp(&other_high) {
        Ordering::Equal => low.cmp(&other_low),
        order => order,
    }
}
