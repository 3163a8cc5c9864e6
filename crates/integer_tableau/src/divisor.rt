//! What numbers have in common, and quotients.
ghost use Rattle.std.specs.Prelude.{◌≡◌, IfSome, ◌≤◌, ◌<◌, ◌^◌, ◌*◌, ◌/◌, pos, unsigned_abs, length, map, int_div, slice_set};
ghost use Rattle.arithmetic.specs.Gcd.{gcd as gcd_of};
ghost use Rattle.run_equivalence.specs.IntegerRows.{number_at, widest};
ghost use Rattle.run_equivalence.specs.WholePivoting.{common_of};

use exact_num::gcd;

// What fits in 64 bits, where a division is several times as fast as in 128.
const SHORT: u128 = u64::MAX as u128;

/// A divisor, and what its exact quotients are guessed by (Jebelean, An Algorithm for Exact
/// Division): the divisor where 64 bits hold it, how many twos it has, and the inverse of the rest
/// modulo 2^64. Each guess is tested, so nothing rests on these.
#[derive(Clone, Copy)]
pub struct Divisor {
    pub number: u128,
    short: u64,
    twos: u32,
    inverse: u64,
}

/// Of a number that is the inverse of `odd` in its low bits one that is so in twice as many.
fn closer(odd: u64, inverse: u64) -> u64 {
    let error = 2_u64.wrapping_sub(odd.wrapping_mul(inverse));
    inverse.wrapping_mul(error)
}

/// The inverse of an odd number modulo 2^64: the number is its own in three bits.
fn inverse_of(odd: u64) -> u64 {
    let six = closer(odd, odd);
    let twelve = closer(odd, six);
    let many = closer(odd, closer(odd, twelve));
    closer(odd, many)
}

/// The number as a divisor.
pub fn divisor_of(number: u128) -> Divisor
    ensures { result.number ≡ number }
{
    let short = (number & SHORT) as u64;
    let twos = short.trailing_zeros();
    let inverse = inverse_of(short.wrapping_shr(twos));
    Divisor {
        number,
        short,
        twos,
        inverse,
    }
}

/// The product of two sizes.
pub fn size_product(a: u64, b: u64) -> u128
    ensures { result ≡ a * b }
{
    a as u128 * b as u128
}

/// The quotient, where the divisor divides the size and 64 bits hold both of them.
fn exact_quotient(size: u128, divisor: Divisor) -> Option<u64>
    ensures { IfSome result (λ quotient. quotient * divisor.number ≡ size) }
{
    let odd = (size.wrapping_shr(divisor.twos) & SHORT) as u64;
    let guess = odd.wrapping_mul(divisor.inverse);
    if divisor.short as u128 == divisor.number && size_product(guess, divisor.short) == size {
        Some(guess)
    } else {
        None
    }
}

/// What the sizes have in common, in 64 bits.
pub fn short_gcd(a: u64, b: u64) -> u64
    requires { 0 < b }
    ensures value { result ≡ gcd_of a b }
    ensures above { 0 < result }
    ensures below { result ≤ b }
{
    gcd(a as u128, b as u128) as u64
}

/// What the size has in common with `found`, which mostly divides it.
pub fn common_with(size: u64, found: u64) -> u64
    requires { 0 < found }
    ensures value { result ≡ gcd_of size found }
    ensures above { 0 < result }
    ensures below { result ≤ found }
{
    if size == 0 {
        return found;
    }
    let rest = size % found;
    if rest == 0 {
        return found;
    }
    short_gcd(rest, found)
}

/// The same of a size of 128 bits, which 64 bits mostly hold.
pub fn common_with_wide(size: u128, found: u64) -> u64
    requires { 0 < found }
    ensures value { result ≡ gcd_of size found }
    ensures above { 0 < result }
    ensures below { result ≤ found }
{
    if size <= SHORT {
        common_with(size as u64, found)
    } else {
        gcd(size, found as u128) as u64
    }
}

/// The same, where `found` may be of 128 bits too, and 0.
pub fn common_of_wide(size: u128, found: u128) -> u128
    ensures { result ≡ gcd_of size found }
{
    if size == 0 {
        return found;
    }
    if found != 0 && found <= SHORT {
        common_with_wide(size, found as u64) as u128
    } else {
        gcd(size, found)
    }
}

/// The same, as a divisor: one that divides the size stays.
fn common_divisor(size: u128, found: Divisor) -> Divisor
    ensures { result.number ≡ gcd_of size found.number }
{
    match exact_quotient(size, found) {
        Some(_) => found,
        None => divisor_of(common_of_wide(size, found.number)),
    }
}

/// What the denominator and the numbers have in common.
pub fn common(denominator: u128, numbers: &[i128]) -> u128
    ensures { result ≡ common_of denominator numbers.now }
{
    let mut found = divisor_of(denominator);
    for number in numbers {
        if found.number == 1 {
            return 1;
        }
        found = common_divisor(number.unsigned_abs(), found);
    }
    found.number
}

/// The same as [`common`] of numbers of 64 bits.
pub fn common_short(denominator: u64, numbers: &[i64]) -> u64
    requires { 0 < denominator }
    ensures value { result ≡ common_of denominator numbers.now }
    ensures above { 0 < result }
    ensures below { result ≤ denominator }
{
    let mut found = denominator;
    for number in numbers {
        if found == 1 {
            return 1;
        }
        found = common_with(number.unsigned_abs(), found);
    }
    found
}

/// The quotient, in 64 bits. The sizes are divided: most are short, and divided faster.
pub fn short_quotient(number: i64, divisor: u64) -> i64
    requires above { 0 < divisor }
    requires below { divisor ≤ widest }
    ensures { result ≡ int_div number (pos divisor) }
{
    if divisor == 1 {
        return number;
    }
    let found = (number.unsigned_abs() / divisor) as i64;
    if number < 0 { -found } else { found }
}

/// Divides the number at place i. Most are 0, and stay.
fn divide_at(numbers: &mut [i64], i: usize, divisor: u64)
    requires inside { i < length numbers.old }
    requires above { 0 < divisor }
    requires below { divisor ≤ widest }
    ensures { numbers.new
        ≡ slice_set numbers.old i (int_div (number_at numbers.old i) (pos divisor)) }
{
    let number = numbers[i];
    if number != 0 {
        numbers[i] = short_quotient(number, divisor);
    }
}

/// Divides the numbers.
pub fn divide_numbers(numbers: &mut [i64], divisor: u64)
    requires above { 0 < divisor }
    requires below { divisor ≤ widest }
    ensures { numbers.new ≡ map (λ z. int_div z (pos divisor)) numbers.old }
{
    for i in 0..numbers.len() {
        divide_at(numbers, i, divisor);
    }
}

/// The quotient of sizes, in 64 bits where they hold both.
fn size_quotient(size: u128, divisor: u128) -> u128
    requires { 0 < divisor }
    ensures { result ≡ size / divisor }
{
    if size <= SHORT && divisor <= SHORT {
        (size as u64 / divisor as u64) as u128
    } else {
        size / divisor
    }
}

/// The quotient. Mostly a row has nothing in common, and then nothing is divided.
pub fn wide_quotient(number: i128, divisor: u128) -> i128
    requires above { 0 < divisor }
    requires below { divisor < 2 ^ 127 }
    ensures { result ≡ int_div number (pos divisor) }
{
    if divisor == 1 {
        return number;
    }
    if number == 0 {
        return 0;
    }
    let size = size_quotient(number.unsigned_abs(), divisor) as i128;
    if number < 0 { -size } else { size }
}

/// The quotient by a divisor that mostly divides the number.
pub fn whole_quotient(number: i128, divisor: Divisor) -> i128
    requires above { 0 < divisor.number }
    requires below { divisor.number < 2 ^ 127 }
    ensures { result ≡ int_div number (pos divisor.number) }
{
    if divisor.number == 1 {
        return number;
    }
    match exact_quotient(number.unsigned_abs(), divisor) {
        Some(quotient) => {
            let size = quotient as i128;
            if number < 0 { -size } else { size }
        }
        None => wide_quotient(number, divisor.number),
    }
}
