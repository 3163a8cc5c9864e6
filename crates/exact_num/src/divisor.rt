//! The greatest common divisor.
ghost use Rattle.std.specs.Prelude.{◌≡◌, ◌<◌, ◌%◌};
ghost use Rattle.arithmetic.specs.Gcd.{gcd as gcd_of};

// What fits in 64 bits, where a step is several times as fast as in 128.
const SHORT: u128 = u64::MAX as u128;

/// The greatest number that divides both; `gcd(0, b)` is `b`, and `gcd(0, 0)` is 0.
///
/// The binary method (Knuth, The Art of Computer Programming, volume 2, 4.5.2, algorithm B), with
/// one remainder at first where one number is much the larger.
pub fn gcd(a: u128, b: u128) -> u128
    ensures { result ≡ gcd_of a b }
{
    if a <= SHORT && b <= SHORT {
        return gcd_of_short(a as u64, b as u64) as u128;
    }
    let low = a.min(b);
    let high = a.max(b);
    if low == 0 {
        high
    } else if low <= SHORT {
        gcd_with_short(low as u64, high)
    } else {
        gcd_of_long(low, high)
    }
}

fn gcd_with_short(low: u64, high: u128) -> u128
    requires { 0 < low }
    ensures { result ≡ gcd_of low high }
{
    let rest = high % low as u128;
    gcd_of_short(low, rest as u64) as u128
}

/// The same of numbers of 64 bits.
pub fn gcd_of_short(a: u64, b: u64) -> u64
    ensures { result ≡ gcd_of a b }
{
    let low = a.min(b);
    let high = a.max(b);
    if low == 0 {
        return high;
    }
    if high >> 6 < low {
        return gcd_by_twos(low, high);
    }
    let rest = high % low;
    if rest == 0 {
        low
    } else {
        gcd_by_twos(low, rest)
    }
}

// Each number without its twos, and at the end the twos of both.
fn gcd_by_twos(a: u64, b: u64) -> u64
    requires left { 0 < a }
    requires right { 0 < b }
    ensures { result ≡ gcd_of a b }
{
    let twos_of_a = a.trailing_zeros();
    let twos_of_b = b.trailing_zeros();
    gcd_of_odd(a >> twos_of_a, b >> twos_of_b) << twos_of_a.min(twos_of_b)
}

// The difference, even where it wraps, has the twos of the gap, and is there before it.
fn gcd_of_odd(mut a: u64, mut b: u64) -> u64
    requires left { a % 2 ≡ 1 }
    requires right { b % 2 ≡ 1 }
    ensures { result ≡ gcd_of a b }
{
    loop {
        let difference = a.wrapping_sub(b);
        if difference == 0 {
            return a;
        }
        let twos = difference.trailing_zeros();
        let low = a.min(b);
        let gap = a.max(b) - low;
        a = low;
        b = gap >> twos;
    }
}

// The same of numbers of 128 bits, down to where the lesser one fits in 64.
fn gcd_of_long(a: u128, b: u128) -> u128
    requires left { 0 < a }
    requires right { 0 < b }
    ensures { result ≡ gcd_of a b }
{
    let twos_of_a = a.trailing_zeros();
    let twos_of_b = b.trailing_zeros();
    let twos = twos_of_a.min(twos_of_b);
    let (mut x, mut y) = (a >> twos_of_a, b >> twos_of_b);
    while x != y {
        let twos_of_gap = x.wrapping_sub(y).trailing_zeros();
        let low = x.min(y);
        let gap = x.max(y) - low;
        if low <= SHORT {
            return gcd_with_short(low as u64, gap) << twos;
        }
        x = low;
        y = gap >> twos_of_gap;
    }
    x << twos
}
