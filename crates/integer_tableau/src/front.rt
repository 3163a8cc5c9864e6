//! The row at the front of a row: the denominator, and then so many numbers, the right side last.
ghost use Rattle.std.specs.Prelude.{◌≡◌, ◌+◌, ◌-◌, ◌^◌, ◌<◌, ◌≤◌, length, map, pos, true, unsigned_abs, slice_set, take};
ghost use Rattle.std.specs.Int.{int_signum};
ghost use Rattle.run_equivalence.specs.IntegerRows.{IsIntegerRow, integer_row, row_size, number_at, widest};
ghost use Rattle.run_equivalence.specs.WholePivoting.{cut};
ghost use Rattle.integer_tableau.specs.Eliminating.{IsEliminatedBy, IsFrontLeft, IsKept, IsPivotRow, IsShortPivot};
ghost use Rattle.integer_tableau.specs.Rows.{row_in, nonzero_in};

use crate::divisor::{common_short, divide_numbers};
use crate::mix::{Pivot, PivotRow};
use crate::outcome::Eliminated;
use crate::short_row::{eliminate_short, list_nonzero};
use crate::wide::{divide_common, eliminate_wide, narrow, widen, write_signs};
use crate::word::{Widen, Word};

/// Brings the row of so many numbers at the front of the row to lowest terms.
pub fn cut_front(row: &mut [i64], width: usize)
    requires width { width < length row.old }
    requires line { IsIntegerRow widest width (row_in width row.old) }
    ensures { row_in width row.new ≡ cut (row_in width row.old) }
{
    let denominator = row[0].unsigned_abs();
    let numbers = &mut row[1..width + 1];
    let divisor = common_short(denominator, numbers);
    if divisor == 1 {
        return;
    }
    divide_numbers(numbers, divisor);
    row[0] = (denominator / divisor) as i64;
}

/// The same of a row of 128 bits.
pub fn cut_wide_front(row: &mut [i128], width: usize)
    requires width { width < length row.old }
    requires line { IsIntegerRow (2 ^ 127 - 1) width (row_in width row.old) }
    ensures { row_in width row.new ≡ cut (row_in width row.old) }
{
    let denominator = row[0].unsigned_abs();
    let below = divide_common(denominator, &mut row[1..width + 1]);
    row[0] = below as i128;
}

/// Exchanges the denominator and the number in column `c`.
pub fn exchange_denominator<W: Word>(row: &mut [W], c: usize)
    requires column { c + 1 < length row.old }
    requires below { unsigned_abs (number_at (map W.value row.old) 0) ≤ W.held }
    ensures { map W.value row.new ≡ slice_set
        (slice_set (map W.value row.old) 0 (number_at (map W.value row.old) (c + 1))) (c + 1)
        (pos (unsigned_abs (number_at (map W.value row.old) 0))) }
{
    let below = row[0].size();
    row[0] = row[c + 1];
    row[c + 1] = below;
}

/// Writes a row to the front of a row.
pub fn write_front(row: &mut [i128], denominator: u128, numbers: &[i128])
    requires width { length numbers.now < length row.old }
    requires denominator { denominator ≤ 2 ^ 127 - 1 }
    ensures { row_in (length numbers.now) row.new ≡ integer_row denominator numbers.now }
{
    row[0] = denominator as i128;
    row[1..numbers.len() + 1].copy_from_slice(numbers);
}

/// Writes the front of a wide row, which 64 bits hold, to that of a short one: the denominator and
/// `width` numbers.
pub fn narrow_front(row: &mut [i64], wide: &[i128], width: usize)
    requires widths { (width < length row.old) × (width < length wide.now) }
    requires line { IsIntegerRow widest width (row_in width wide.now) }
    ensures { take (width + 1) row.new ≡ take (width + 1) wide.now }
{
    narrow(&mut row[..width + 1], &wide[..width + 1]);
}

/// Writes the front of a short row to that of a wide one.
pub fn widen_front(row: &mut [i128], short: &[i64], width: usize)
    requires { (width < length row.old) × (width < length short.now) }
    ensures { take (width + 1) row.new ≡ take (width + 1) short.now }
{
    widen(&mut row[..width + 1], &short[..width + 1]);
}

/// Writes the signs of the front of a wide row to that of a short one.
pub fn write_front_signs(row: &mut [i64], wide: &[i128], width: usize)
    requires { (width < length row.old) × (width < length wide.now) }
    ensures { take (width + 1) row.new ≡ map int_signum (take (width + 1) wide.now) }
{
    write_signs(&mut row[..width + 1], &wide[..width + 1]);
}

/// Lists the places where the numbers at the front of the row are not 0, and answers how many they
/// are.
pub fn front_nonzero(row: &[i64], width: usize, places: &mut [usize]) -> usize
    requires width { width < length row.now }
    requires room { width ≤ length places.old }
    ensures places { take result places.new ≡ nonzero_in (row_in width row.now).numbers }
    ensures count { result ≤ length places.new }
{
    list_nonzero(&row[1..width + 1], places)
}

/// Eliminates the pivot's column from the row at the front of the row, where the sizes of both rows say
/// that each step is within the limit. The row is at most `size`, which is kept so where it stays
/// short. `room` has as many places as the row has numbers.
pub fn eliminate_front(
    row: &mut [i64],
    size: &mut u64,
    pivot: &[i64],
    known: PivotRow,
    room: &mut [i128],
) -> Eliminated
    requires widths { (length room.old < length row.old) × (length room.old < length pivot.now) }
    requires pivot { IsPivotRow known (length room.old)
        (row_in (length room.old) pivot.now).numbers }
    requires short { IsShortPivot known }
    requires line { IsKept widest (length room.old) size.old (row_in (length room.old) row.old) }
    ensures { IsFrontLeft result known.entry (length room.old)
        (row_in (length room.old) pivot.now).numbers (row_in (length room.old) row.old)
        row.new size.new room.new }
{
    let width = room.len();
    let denominator = row[0].unsigned_abs();
    let numbers = &mut row[1..width + 1];
    let pivot = Pivot {
        numbers: &pivot[1..width + 1],
        known,
    };
    match eliminate_short(denominator, numbers, size, pivot, room) {
        Eliminated::Short { denominator } => {
            row[0] = denominator as i64;
            Eliminated::Short { denominator }
        }
        Eliminated::Wide { denominator } => Eliminated::Wide { denominator },
        Eliminated::Misfit => Eliminated::Misfit,
    }
}

/// The same of a row of 128 bits, by a pivot row of either width, in place. Says whether each step
/// is within the limit.
pub fn eliminate_wide_front<P: Widen<i128>>(
    row: &mut [i128],
    size: &mut u128,
    pivot: &[P],
    known: PivotRow,
    width: usize,
) -> bool
    requires widths { (width < length row.old) × (width < length pivot.now) }
    requires pivot { IsPivotRow known width (row_in width (map P.value pivot.now)).numbers }
    requires line { IsKept known.step.limit width size.old (row_in width row.old) }
    ensures eliminated { result ≡ true → IsEliminatedBy known.entry
        (row_in width (map P.value pivot.now)).numbers
        (row_in width row.old) (row_in width row.new) }
    ensures size { result ≡ true → row_size (row_in width row.new) ≤ size.new }
{
    let denominator = row[0].unsigned_abs();
    let numbers = &mut row[1..width + 1];
    let pivot = Pivot {
        numbers: &pivot[1..width + 1],
        known,
    };
    let Some(below) = eliminate_wide(denominator, numbers, size, pivot) else {
        return false;
    };
    row[0] = below as i128;
    true
}
