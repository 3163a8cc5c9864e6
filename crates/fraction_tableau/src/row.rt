//! A row in a pivot: the column that enters becomes that of the variable that leaves.
ghost use Rattle.std.specs.Prelude.{◌≡◌, ◌≢◌, ◌+◌, ◌<◌, ◌≤◌, length, map, pos, unsigned_abs, vec_capacity};
ghost use Rattle.exact_num.specs.Fits.{div_of, written_back};
ghost use Rattle.simplex_run.specs.Places.{at};
ghost use Rattle.simplex_run.specs.Table.{with_right};
ghost use Rattle.simplex_run.specs.Pivot.{divided, eliminated, less_product as less_product_of, steps_of, told};
ghost use Rattle.fraction_tableau.specs.Nonzero.{nonzero_places};

use crate::columns::label_of;
use crate::entries::{is_zero, less_product, list_nonzero, quotient};
use crate::stops::{ColumnStop, Step, least_stop};
use exact_num::{Exact, Wide};

/// Divides each entry; `places` are those where the row is not 0.
pub fn divide_row<N: Exact>(
    row: &mut [N],
    places: &[usize],
    labels: &[usize],
    columns: usize,
    divisor: N,
) -> Result<(), Wide>
    requires divisor { (N.fraction divisor).numerator ≢ pos 0 }
    requires width { length row.old ≡ length labels.now + 1 }
    requires places { places.now ≡ nonzero_places (map N.fraction row.old) }
    ensures { written_back result (map N.fraction row.new)
        ≡ told (steps_of (λ k. div_of (unsigned_abs N.LIMIT) (at (map N.fraction row.old) k)
        (N.fraction divisor)) 0 (with_right columns labels.now)) }
{
    for i in 0..places.len() {
        let place = places[i];
        match quotient(row[place], divisor) {
            Ok(entry) => row[place] = entry,
            Err(wide) => {
                let label = label_of(labels, columns, place);
                let found = ColumnStop { label, wide };
                let later = &places[i + 1..];
                let step = Step::Over(divisor);
                return Err(least_stop(row, row, step, later, labels, columns, found));
            }
        }
    }
    Ok(())
}

/// Takes `factor` times the pivot row from the row; `places` are those where the pivot row is not 0:
/// the entries elsewhere stay.
pub fn eliminate_row<N: Exact>(
    row: &mut [N],
    pivot: &[N],
    places: &[usize],
    labels: &[usize],
    columns: usize,
    factor: N,
) -> Result<(), Wide>
    requires widths { (length row.old ≡ length labels.now + 1)
        × (length pivot.now ≡ length labels.now + 1) }
    requires places { places.now ≡ nonzero_places (map N.fraction pivot.now) }
    ensures { written_back result (map N.fraction row.new)
        ≡ told (steps_of (λ k. less_product_of (unsigned_abs N.LIMIT) (N.fraction factor)
        (at (map N.fraction row.old) k) (at (map N.fraction pivot.now) k)) 0
        (with_right columns labels.now)) }
{
    for i in 0..places.len() {
        let place = places[i];
        match less_product(row[place], factor, pivot[place]) {
            Ok(entry) => row[place] = entry,
            Err(wide) => {
                let label = label_of(labels, columns, place);
                let found = ColumnStop { label, wide };
                let later = &places[i + 1..];
                let step = Step::Less(factor);
                return Err(least_stop(row, pivot, step, later, labels, columns, found));
            }
        }
    }
    Ok(())
}

/// The row that leaves becomes the pivot row; `labels` are those after the pivot.
pub fn take_pivot<N: Exact>(
    row: &mut [N],
    places: &mut Vec<usize>,
    labels: &[usize],
    columns: usize,
    c: usize,
) -> Result<(), Wide>
    requires column { c < length row.old }
    requires width { length row.old ≡ length labels.now + 1 }
    requires pivot { (at (map N.fraction row.old) c).numerator ≢ pos 0 }
    requires room { length row.old ≤ vec_capacity places.old }
    ensures row { written_back result (map N.fraction row.new)
        ≡ divided (unsigned_abs N.LIMIT) c (with_right columns labels.now)
        (map N.fraction row.old) }
    ensures capacity { vec_capacity places.old ≤ vec_capacity places.new }
{
    let divisor = row[c];
    row[c] = N::one();
    list_nonzero(row, places);
    divide_row(row, places.as_slice(), labels, columns, divisor)
}

/// Another row, or the objective row, is eliminated; `places` are those where the pivot row is not 0.
pub fn eliminate_column<N: Exact>(
    row: &mut [N],
    pivot: &[N],
    places: &[usize],
    labels: &[usize],
    columns: usize,
    c: usize,
) -> Result<(), Wide>
    requires column { c < length row.old }
    requires widths { (length row.old ≡ length labels.now + 1)
        × (length pivot.now ≡ length labels.now + 1) }
    requires places { places.now ≡ nonzero_places (map N.fraction pivot.now) }
    ensures { written_back result (map N.fraction row.new)
        ≡ eliminated (unsigned_abs N.LIMIT) c (with_right columns labels.now)
        (map N.fraction pivot.now) (map N.fraction row.old) }
{
    let factor = row[c];
    row[c] = N::zero();
    if is_zero(factor) {
        return Ok(());
    }
    eliminate_row(row, pivot, places, labels, columns, factor)
}
