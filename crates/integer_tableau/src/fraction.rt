//! Numbers over a denominator as fractions, and fractions over a common denominator.
ghost use Rattle.std.specs.Prelude.{◌≡◌, ◌<◌, ◌≤◌, IfSome, length, map, true, unsigned_abs};
ghost use Rattle.exact_num.specs.CommonDenominator.{amount_over, signed_amounts_over};
ghost use Rattle.exact_num.specs.Fraction.{reduced, whole as whole_of};
ghost use Rattle.run_equivalence.specs.IntegerRows.{AreSizes, IsIntegerRow, least_multiple as least_multiple_of, multiple as multiple_of, taken_in, widest};
ghost use Rattle.integer_tableau.specs.Rows.{row_in};
ghost use Rattle.integer_tableau.specs.Within.{HasMultiple};

use crate::word::{WIDEST, within};
use exact_num::{Exact, gcd};

/// The whole number.
fn whole<N: Exact>(v: i128) -> N
    requires { unsigned_abs v ≤ unsigned_abs N.LIMIT }
    ensures { N.fraction result ≡ whole_of v }
{
    N::from_whole(v).unwrap()
}

/// The number over the denominator, in lowest terms.
pub fn fraction<N: Exact>(number: i128, denominator: u128) -> N
    requires number { unsigned_abs number ≤ unsigned_abs N.LIMIT }
    requires denominator { (0 < denominator) × (denominator ≤ unsigned_abs N.LIMIT) }
    ensures { N.fraction result ≡ reduced number denominator }
{
    // a number of 128 bits, so that the denominator is one
    let _limit = N::LIMIT;
    let above: N = whole(number);
    let below: N = whole(denominator as i128);
    above.div(below).unwrap()
}

/// The least common multiple of both, where 64 bits hold it.
fn multiple(one: u128, other: u64) -> Option<u64>
    requires one { 0 < one }
    requires other { (0 < other) × (other ≤ widest) }
    ensures { IfSome result (λ m. (m ≡ multiple_of one other) × (0 < m) × (m ≤ widest)) }
{
    if one == 1 {
        return Some(other);
    }
    if one > WIDEST {
        return None;
    }
    let shared = gcd(one, other as u128);
    let product = one * (other as u128 / shared);
    if product <= WIDEST {
        Some(product as u64)
    } else {
        None
    }
}

/// The least common multiple of the denominator and `found`, where 64 bits hold it.
fn with_denominator<N: Exact>(entry: N, found: u64) -> Option<u64>
    requires { (0 < found) × (found ≤ widest) }
    ensures { IfSome result (λ m. (m ≡ multiple_of (N.fraction entry).denominator found)
        × (0 < m) × (m ≤ widest)) }
{
    let (_, below) = entry.parts();
    multiple(below as u128, found)
}

/// The least common multiple of the denominators, where 64 bits hold it.
fn least_multiple<N: Exact>(entries: &[N]) -> Option<u64>
    ensures { IfSome result (HasMultiple (least_multiple_of (map N.fraction entries.now))) }
{
    let mut found = 1;
    for j in (0..entries.len()).rev() {
        let Some(next) = with_denominator(entries[j], found) else {
            return None;
        };
        found = next;
    }
    Some(found)
}

/// What the fraction is over the denominator, which its own divides, where 64 bits hold it.
fn amount<N: Exact>(entry: N, denominator: u64) -> Option<i64>
    ensures { IfSome result (λ z. (z ≡ amount_over denominator (N.fraction entry))
        × (unsigned_abs z ≤ widest)) }
{
    let (above, below) = entry.parts();
    if below as u128 == denominator as u128 {
        return within(above);
    }
    let share = denominator as u128 / below as u128;
    let Some(number) = above.checked_mul(share as i128) else {
        return None;
    };
    within(number)
}

/// Writes what each fraction is over the denominator, and says whether 64 bits hold all.
fn write_amounts<N: Exact>(numbers: &mut [i64], entries: &[N], denominator: u64) -> bool
    requires width { length numbers.old ≡ length entries.now }
    ensures amounts { result ≡ true
        → numbers.new ≡ signed_amounts_over denominator (map N.fraction entries.now) }
    ensures sizes { result ≡ true → AreSizes widest numbers.new }
{
    for j in 0..numbers.len() {
        let Some(number) = amount(entries[j], denominator) else {
            return false;
        };
        numbers[j] = number;
    }
    true
}

/// Writes the row of the fractions to the front of a row, and says whether 64 bits hold it.
pub fn take_numbers<N: Exact>(row: &mut [i64], entries: &[N]) -> bool
    requires width { length entries.now < length row.old }
    ensures line { result ≡ true
        → row_in (length entries.now) row.new ≡ taken_in (map N.fraction entries.now) }
    ensures within { result ≡ true
        → IsIntegerRow widest (length entries.now) (row_in (length entries.now) row.new) }
{
    let Some(denominator) = least_multiple(entries) else {
        return false;
    };
    row[0] = denominator as i64;
    write_amounts(&mut row[1..entries.len() + 1], entries, denominator)
}
