//! Rows of 128 bits: the objective row, and each row that 64 bits do not hold or whose steps they
//! do not.
ghost use Rattle.std.specs.Prelude.{◌≡◌, true, IfSome, ◌<◌, ◌≤◌, ◌+◌, ◌-◌, ◌*◌, ◌/◌, ◌^◌, pos, unsigned_abs, length, map, int_div};
ghost use Rattle.std.specs.Int.{int_signum};
ghost use Rattle.arithmetic.specs.Gcd.{gcd as gcd_of};
ghost use Rattle.run_equivalence.specs.WholePivoting.{cut, cut_where_wide};
ghost use Rattle.run_equivalence.specs.IntegerRows.{AreSizes, row_fits, integer_row, row_size, numbers_fit, widest};
ghost use Rattle.integer_tableau.specs.Eliminating.{IsEliminatedBy, IsKept, IsPivotRow};

use crate::divisor::{common, common_of_wide, divisor_of, whole_quotient, wide_quotient};
use crate::mix::{Factors, Pivot, PivotRow, mix};
use crate::word::{WIDEST, Widen};

/// Writes the numbers.
pub fn widen(out: &mut [i128], numbers: &[i64])
    requires { length out.old ≡ length numbers.now }
    ensures { out.new ≡ numbers.now }
{
    for i in 0..out.len() {
        out[i] = numbers[i] as i128;
    }
}

/// Writes the numbers, which 64 bits hold.
pub fn narrow(out: &mut [i64], numbers: &[i128])
    requires width { length out.old ≡ length numbers.now }
    requires short { numbers_fit widest numbers.now ≡ true }
    ensures { out.new ≡ numbers.now }
{
    for i in 0..out.len() {
        out[i] = numbers[i] as i64;
    }
}

/// Writes the signs of the numbers.
pub fn write_signs(out: &mut [i64], numbers: &[i128])
    requires { length out.old ≡ length numbers.now }
    ensures { out.new ≡ map int_signum numbers.now }
{
    for i in 0..out.len() {
        out[i] = numbers[i].signum() as i64;
    }
}

/// The same factors.
pub fn widened(factors: Factors<i64>) -> Factors<i128>
    ensures p { result.p ≡ factors.p }
    ensures f { result.f ≡ factors.f }
{
    Factors {
        p: factors.p as i128,
        f: factors.f as i128,
    }
}

/// A size that none of the numbers is above.
pub fn wide_size(numbers: &[i128]) -> u128
    ensures { AreSizes result numbers.now }
{
    let mut size = 0;
    for number in numbers {
        size |= number.unsigned_abs();
    }
    size
}

/// The size of numbers of size `most` times `times`, less `less` times those of size `pivot_most`,
/// where it is within the limit.
fn wide_mixed_size(
    most: u128,
    times: u128,
    less: u128,
    pivot_most: u128,
    limit: u128,
) -> Option<u128>
    ensures { IfSome result (λ size.
        (size ≡ most * times + less * pivot_most) × (size ≤ limit)) }
{
    let Some(own) = most.checked_mul(times) else {
        return None;
    };
    let Some(other) = less.checked_mul(pivot_most) else {
        return None;
    };
    let Some(size) = own.checked_add(other) else {
        return None;
    };
    if size <= limit { Some(size) } else { None }
}

/// The size of the row when it is mixed, where it is within the limit: by the one that is kept, or
/// where that is too great by one that is made anew.
#[inline(always)]
fn wide_size_to_mix(
    denominator: u128,
    numbers: &[i128],
    kept: u128,
    factors: Factors<i128>,
    known: PivotRow,
) -> Option<u128>
    requires { row_size (integer_row denominator numbers.now) ≤ kept }
    ensures mixed { IfSome result (λ size. row_size (integer_row denominator numbers.now)
        * unsigned_abs factors.p + unsigned_abs factors.f * known.entry.most ≤ size) }
    ensures within { IfSome result (λ size. size ≤ known.entry.step.limit) }
{
    let PivotRow { step, most, .. } = known;
    let (times, less) = (factors.p.unsigned_abs(), factors.f.unsigned_abs());
    match wide_mixed_size(kept, times, less, most, step.limit) {
        Some(size) => Some(size),
        None => {
            let anew = wide_size(numbers) | denominator;
            wide_mixed_size(anew, times, less, most, step.limit)
        }
    }
}

/// Whether 64 bits hold each number in either sign.
fn are_short(numbers: &[i128]) -> bool
    ensures { result ≡ numbers_fit widest numbers.now }
{
    for number in numbers {
        if number.unsigned_abs() > WIDEST {
            return false;
        }
    }
    true
}

/// Whether 64 bits hold the row in either sign.
pub fn is_short(denominator: u128, numbers: &[i128]) -> bool
    ensures { result ≡ row_fits widest (integer_row denominator numbers.now) }
{
    denominator <= WIDEST && are_short(numbers)
}

/// Divides the numbers.
fn divide_wide(numbers: &mut [i128], divisor: u128)
    requires above { 0 < divisor }
    requires below { divisor < 2 ^ 127 }
    ensures { numbers.new ≡ map (λ z. int_div z (pos divisor)) numbers.old }
{
    let by = divisor_of(divisor);
    for i in 0..numbers.len() {
        let number = whole_quotient(numbers[i], by);
        numbers[i] = number;
    }
}

/// Divides the row by what it has in common, and answers its denominator.
pub fn divide_common(denominator: u128, numbers: &mut [i128]) -> u128
    requires above { 0 < denominator }
    requires below { denominator < 2 ^ 127 }
    ensures { integer_row result numbers.new ≡ cut (integer_row denominator numbers.old) }
{
    let divisor = common(denominator, numbers);
    divide_wide(numbers, divisor);
    denominator / divisor
}

/// The same, where 64 bits do not hold the row. Any other stays as it is.
pub fn cut_where_not_short(denominator: u128, numbers: &mut [i128]) -> u128
    requires above { 0 < denominator }
    requires below { denominator < 2 ^ 127 }
    ensures { integer_row result numbers.new ≡ cut_where_wide (integer_row denominator numbers.old) }
{
    if is_short(denominator, numbers) {
        denominator
    } else {
        divide_common(denominator, numbers)
    }
}

/// The same, where the size that is kept does not say that 64 bits hold the row. The row is sized
/// anew then.
fn cut_in_place(denominator: u128, numbers: &mut [i128], size: &mut u128) -> u128
    requires above { 0 < denominator }
    requires below { denominator < 2 ^ 127 }
    requires size { row_size (integer_row denominator numbers.old) ≤ size.old }
    ensures line { integer_row result numbers.new ≡ cut_where_wide (integer_row denominator numbers.old) }
    ensures size { row_size (integer_row result numbers.new) ≤ size.new }
{
    if *size <= WIDEST {
        return denominator;
    }
    let below = cut_where_not_short(denominator, numbers);
    *size = wide_size(numbers) | below;
    below
}

/// `a` and `x` without what they have in common.
#[inline(always)]
fn without_common_wide(a: u128, x: i128) -> Factors<i128>
    requires above { 0 < a }
    requires below { a ≤ 2 ^ 127 - 1 }
    requires x { unsigned_abs x ≤ 2 ^ 127 - 1 }
    ensures a { result.p ≡ pos (a / gcd_of (unsigned_abs x) a) }
    ensures x { result.f ≡ int_div x (pos (gcd_of (unsigned_abs x) a)) }
{
    if a == 1 {
        return Factors { p: 1, f: x };
    }
    let shared = common_of_wide(x.unsigned_abs(), a);
    if shared == 1 {
        return Factors { p: a as i128, f: x };
    }
    Factors {
        p: (a / shared) as i128,
        f: wide_quotient(x, shared),
    }
}

/// Eliminates the pivot's column from the row, where the sizes of both rows say that each step is within
/// the limit, and answers the row's new denominator. The row is at most `size`, which is kept so.
pub fn eliminate_wide<P: Widen<i128>>(
    denominator: u128,
    numbers: &mut [i128],
    size: &mut u128,
    pivot: Pivot<P>,
) -> Option<u128>
    requires pivot { IsPivotRow pivot.known (length numbers.old)
        (map P.value pivot.numbers.now) }
    requires line { IsKept pivot.known.step.limit (length numbers.old) size.old
        (integer_row denominator numbers.old) }
    ensures eliminated { IfSome result (λ d. IsEliminatedBy pivot.entry.known
        (map P.value pivot.entry.numbers.now) (integer_row denominator numbers.old)
        (integer_row d numbers.new)) }
    ensures size { IfSome result (λ d. row_size (integer_row d numbers.new) ≤ size.new) }
{
    let PivotRow { step, a, .. } = pivot.known;
    let x = numbers[step.c];
    if x == 0 {
        return Some(denominator);
    }
    let factors = without_common_wide(a, x);
    let Some(mixed) = wide_size_to_mix(denominator, numbers, *size, factors, pivot.known) else {
        return None;
    };
    numbers[step.c] = 0;
    mix(numbers, pivot, factors);
    *size = mixed;
    let below = denominator * factors.p.unsigned_abs();
    Some(cut_in_place(below, numbers, size))
}
