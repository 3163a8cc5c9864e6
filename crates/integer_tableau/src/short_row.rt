//! The steps of a pivot on the numbers of one row of 64 bits.
ghost use Rattle.std.specs.Prelude.{◌≡◌, IfSome, ◌≤◌, ◌≤ℤ◌, ◌<◌, ◌+◌, ◌-◌, ◌*◌, ◌/◌, ◌^◌, pos, unsigned_abs, length, int_div, take};
ghost use Rattle.arithmetic.specs.Gcd.{gcd as gcd_of};
ghost use Rattle.run_equivalence.specs.WholePivoting.{cut_where_wide, cross_difference};
ghost use Rattle.run_equivalence.specs.IntegerRows.{AreSizes, integer_row, row_size, widest};
ghost use Rattle.integer_tableau.specs.Eliminating.{IsKept, IsLeft, IsMade, IsPivotRow, IsShortPivot};
ghost use Rattle.integer_tableau.specs.Rows.{nonzero_in, with_place};
ghost use Rattle.integer_tableau.specs.Within.{HasRoom};

use crate::divisor::{short_gcd, short_quotient, size_product};
use crate::mix::{Factors, Pivot, PivotRow, mix};
use crate::outcome::Eliminated;
use crate::wide::{cut_where_not_short, is_short, narrow, widen, widened};
use crate::word::WIDEST;

/// Writes the place behind the first `count`, and answers how many there are then: one more where
/// its number is not 0. Which numbers are cannot be foretold, so nothing branches on it.
pub fn list_place(places: &mut [usize], count: usize, place: usize, number: i64) -> usize
    requires { count < length places.old }
    ensures places { take result places.new ≡ with_place place number (take count places.old) }
    ensures more { result ≤ count + 1 }
{
    places[count] = place;
    count + usize::from(number != 0)
}

/// Lists the places where the numbers are not 0, and answers how many they are.
pub fn list_nonzero(numbers: &[i64], places: &mut [usize]) -> usize
    requires { length numbers.now ≤ length places.old }
    ensures places { take result places.new ≡ nonzero_in numbers.now }
    ensures count { result ≤ length places.new }
{
    let mut count = 0;
    for (j, number) in numbers.iter().enumerate() {
        count = list_place(places, count, j, *number);
    }
    count
}

/// A size that none of the numbers is above.
pub fn size_of(numbers: &[i64]) -> u64
    ensures { AreSizes result numbers.now }
{
    let mut size = 0;
    for number in numbers {
        size |= number.unsigned_abs();
    }
    size
}

/// The size of numbers of this size times `times`, less `less` times those of size `pivot_size`,
/// where it is within the limit.
fn mixed_size(size: u64, times: u64, less: u64, pivot_size: u64, limit: u128) -> Option<u128>
    ensures { IfSome result (λ made.
        (made ≡ size * times + less * pivot_size) × (made ≤ limit)) }
{
    let Some(made) = size_product(size, times).checked_add(size_product(less, pivot_size)) else {
        return None;
    };
    if made <= limit { Some(made) } else { None }
}

/// The size of the row when it is mixed, where it is within the limit: by the one that is kept,
/// where 64 bits hold it then, and else by one that is made anew.
fn size_to_mix(
    denominator: u64,
    numbers: &[i64],
    kept: u64,
    factors: Factors<i64>,
    known: PivotRow,
) -> Option<u128>
    requires size { row_size (integer_row denominator numbers.now) ≤ kept }
    requires pivot { known.most < 2 ^ 64 }
    requires limit { widest ≤ known.step.limit }
    ensures mixed { IfSome result (λ size. row_size (integer_row denominator numbers.now)
        * unsigned_abs factors.p + unsigned_abs factors.f * known.entry.most ≤ size) }
    ensures within { IfSome result (λ size. size ≤ known.entry.step.limit) }
{
    let (times, less) = (factors.p.unsigned_abs(), factors.f.unsigned_abs());
    let most = known.most as u64;
    match mixed_size(kept, times, less, most, WIDEST) {
        Some(size) => Some(size),
        None => {
            let anew = size_of(numbers) | denominator;
            mixed_size(anew, times, less, most, known.step.limit)
        }
    }
}

/// The row times `p`, less `f` times the pivot row, cut where 64 bits do not hold it. The steps
/// are made in the room, where the row stays if 64 bits do not hold it then either.
fn mix_in_room(
    denominator: u64,
    numbers: &mut [i64],
    size: &mut u64,
    pivot: Pivot<i64>,
    room: &mut [i128],
    factors: Factors<i64>,
) -> Eliminated
    requires width { length numbers.old ≡ length pivot.numbers.now }
    requires room { length room.old ≡ length numbers.old }
    requires places { pivot.known.places.now ≡ nonzero_in pivot.numbers.now }
    requires factor { (pos 0 ≤ℤ factors.p) × (0 < unsigned_abs factors.p) }
    requires above { 0 < denominator }
    requires steps { HasRoom (2 ^ 127 - 1) (unsigned_abs factors.p) (unsigned_abs factors.f)
        numbers.old pivot.numbers.now }
    requires below { denominator * unsigned_abs factors.p ≤ 2 ^ 127 - 1 }
    ensures { IsMade result (cut_where_wide (integer_row (denominator * unsigned_abs factors.p)
        (cross_difference (unsigned_abs factors.p) factors.f numbers.old
        pivot.entry.numbers.now))) numbers.new size.new room.new }
{
    widen(room, numbers);
    mix(room, pivot, widened(factors));
    let below = cut_where_not_short(size_product(denominator, factors.p.unsigned_abs()), room);
    if !is_short(below, room) {
        return Eliminated::Wide { denominator: below };
    }
    narrow(numbers, room);
    let denominator = below as u64;
    *size = size_of(numbers) | denominator;
    Eliminated::Short { denominator }
}

/// The factors: `a` and `x` without what they have in common.
fn without_common(a: u64, x: i64) -> Factors<i64>
    requires above { 0 < a }
    requires below { a ≤ widest }
    requires x { unsigned_abs x ≤ widest }
    ensures a { result.p ≡ pos (a / gcd_of (unsigned_abs x) a) }
    ensures x { result.f ≡ int_div x (pos (gcd_of (unsigned_abs x) a)) }
{
    if a == 1 {
        return Factors { p: 1, f: x };
    }
    let rest = x.unsigned_abs() % a;
    if rest == 0 {
        return Factors {
            p: 1,
            f: short_quotient(x, a),
        };
    }
    let shared = short_gcd(rest, a);
    if shared == 1 {
        return Factors { p: a as i64, f: x };
    }
    Factors {
        p: (a / shared) as i64,
        f: short_quotient(x, shared),
    }
}

/// Eliminates the pivot's column from the row, where the sizes of both rows say that each step is within
/// the limit: in 64 bits where they say that these hold the row then, and else in the room. The
/// row is at most `size`, which is kept so where it stays short.
pub fn eliminate_short(
    denominator: u64,
    numbers: &mut [i64],
    size: &mut u64,
    pivot: Pivot<i64>,
    room: &mut [i128],
) -> Eliminated
    requires width { length room.old ≡ length numbers.old }
    requires pivot { IsPivotRow pivot.known (length numbers.old) pivot.numbers.now }
    requires short { IsShortPivot pivot.known }
    requires line { IsKept widest (length numbers.old) size.old (integer_row denominator numbers.old) }
    ensures { IsLeft result pivot.entry.known pivot.entry.numbers.now
        (integer_row denominator numbers.old) numbers.new size.new room.new }
{
    let PivotRow { step, a, .. } = pivot.known;
    let x = numbers[step.c];
    if x == 0 {
        return Eliminated::Short { denominator };
    }
    let factors = without_common(a as u64, x);
    let Some(made) = size_to_mix(denominator, numbers, *size, factors, pivot.known) else {
        return Eliminated::Misfit;
    };
    numbers[step.c] = 0;
    if made > WIDEST {
        return mix_in_room(denominator, numbers, size, pivot, room, factors);
    }
    mix(numbers, pivot, factors);
    *size = made as u64;
    Eliminated::Short {
        denominator: denominator * factors.p.unsigned_abs(),
    }
}
