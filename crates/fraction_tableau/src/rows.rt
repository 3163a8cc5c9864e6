//! The rows of a pivot in an arena, of whose rows the first entries count: one for each label, and the
//! right side.
ghost use Rattle.std.specs.Prelude.{◌≡◌, ◌≢◌, ◌+◌, ◌<◌, ◌≤◌, [], length, map, pos, slice_index_or, unsigned_abs, vec_capacity};
ghost use Rattle.exact_num.specs.Fits.{written_back};
ghost use Rattle.simplex_run.specs.Places.{at};
ghost use Rattle.simplex_run.specs.Table.{with_right};
ghost use Rattle.simplex_run.specs.Pivot.{divided, eliminated};
ghost use Rattle.fraction_tableau.specs.Lists.{front, fronts, lists_after, lists_after_pivot};
ghost use Rattle.fraction_tableau.specs.Nonzero.{nonzero_places};

use crate::entries::list_nonzero;
use crate::row::{eliminate_column, take_pivot};
use exact_num::{Exact, Wide};
use lists::RowArena;

/// The row that leaves becomes the pivot row.
fn take_front<N: Exact>(
    row: &mut [N],
    places: &mut Vec<usize>,
    labels: &[usize],
    columns: usize,
    c: usize,
) -> Result<(), Wide>
    requires column { c < length labels.now + 1 }
    requires width { length labels.now + 1 ≤ length row.old }
    requires pivot { (at (front N.fraction (length labels.now + 1) row.old) c).numerator ≢ pos 0 }
    requires room { length labels.now + 1 ≤ vec_capacity places.old }
    ensures row { written_back result (front N.fraction (length labels.now + 1) row.new)
        ≡ divided (unsigned_abs N.LIMIT) c (with_right columns labels.now)
        (front N.fraction (length labels.now + 1) row.old) }
    ensures capacity { vec_capacity places.old ≤ vec_capacity places.new }
{
    take_pivot(&mut row[..labels.len() + 1], places, labels, columns, c)
}

/// Another row is eliminated.
fn eliminate_front<N: Exact>(
    row: &mut [N],
    pivot: &[N],
    places: &[usize],
    labels: &[usize],
    columns: usize,
    c: usize,
) -> Result<(), Wide>
    requires column { c < length labels.now + 1 }
    requires widths { (length labels.now + 1 ≤ length row.old)
        × (length labels.now + 1 ≤ length pivot.now) }
    requires places { places.now
        ≡ nonzero_places (front N.fraction (length labels.now + 1) pivot.now) }
    ensures { written_back result (front N.fraction (length labels.now + 1) row.new)
        ≡ eliminated (unsigned_abs N.LIMIT) c (with_right columns labels.now)
        (front N.fraction (length labels.now + 1) pivot.now)
        (front N.fraction (length labels.now + 1) row.old) }
{
    let width = labels.len() + 1;
    eliminate_column(
        &mut row[..width],
        &pivot[..width],
        places,
        labels,
        columns,
        c,
    )
}

/// Clears each row but the pivot row r, up to the first that has a step that does not fit.
fn eliminate_rows<N: Exact>(
    rows: &mut RowArena<N>,
    places: &[usize],
    labels: &[usize],
    columns: usize,
    r: usize,
    c: usize,
) -> Result<(), Wide>
    requires row { r < length rows.old.rows }
    requires column { c < length labels.now + 1 }
    requires width { length labels.now + 1 ≤ rows.old.width }
    requires places { places.now ≡ nonzero_places
        (front N.fraction (length labels.now + 1) (slice_index_or rows.old.rows r [])) }
    ensures rows { written_back result (fronts N.fraction (length labels.now + 1) rows.new.rows)
        ≡ lists_after (unsigned_abs N.LIMIT) c (with_right columns labels.now) r
        (front N.fraction (length labels.now + 1) (slice_index_or rows.old.rows r [])) 0
        (fronts N.fraction (length labels.now + 1) rows.old.rows) }
    ensures pivot { slice_index_or rows.new.rows r [] ≡ slice_index_or rows.old.rows r [] }
    ensures width { rows.new.width ≡ rows.old.width }
    ensures spare { rows.new.spare ≡ rows.old.spare }
    ensures count { length rows.new.rows ≡ length rows.old.rows }
{
    for i in 0..rows.len() {
        if i != r {
            let (pivot, row) = rows.pair(r, i);
            eliminate_front(row, pivot, places, labels, columns, c)?;
        }
    }
    Ok(())
}

/// The rows of a pivot and the objective row, where the column at c becomes that of the variable that
/// leaves. `places` is room for the list of the columns where the pivot row is not 0.
pub fn pivot_rows<N: Exact>(
    rows: &mut RowArena<N>,
    objective: &mut [N],
    places: &mut Vec<usize>,
    labels: &[usize],
    columns: usize,
    r: usize,
    c: usize,
) -> Result<(), Wide>
    requires row { r < length rows.old.rows }
    requires column { c < length labels.now + 1 }
    requires objective { length objective.old ≡ length labels.now + 1 }
    requires width { length labels.now + 1 ≤ rows.old.width }
    requires pivot { (at (front N.fraction (length labels.now + 1)
        (slice_index_or rows.old.rows r [])) c).numerator ≢ pos 0 }
    requires room { length labels.now + 1 ≤ vec_capacity places.old }
    ensures turned { written_back result
        (fronts N.fraction (length labels.now + 1) rows.new.rows, map N.fraction objective.new)
        ≡ lists_after_pivot (unsigned_abs N.LIMIT) c (with_right columns labels.now) r
        (fronts N.fraction (length labels.now + 1) rows.old.rows)
        (map N.fraction objective.old) }
    ensures width { rows.new.width ≡ rows.old.width }
    ensures spare { rows.new.spare ≡ rows.old.spare }
    ensures count { length rows.new.rows ≡ length rows.old.rows }
    ensures capacity { vec_capacity places.old ≤ vec_capacity places.new }
{
    let width = labels.len() + 1;
    take_front(rows.row_mut(r), places, labels, columns, c)?;
    list_nonzero(&rows.row(r)[..width], places);
    let listed = places.as_slice();
    eliminate_rows(rows, listed, labels, columns, r, c)?;
    eliminate_column(objective, &rows.row(r)[..width], listed, labels, columns, c)
}
