//! The step of a row that is told, where several do not fit.
ghost use Rattle.std.specs.Prelude.{◌≡◌, ◌+◌, ◌<◌, length, map, unsigned_abs};
ghost use Rattle.std.specs.List.{All};
ghost use Rattle.exact_num.specs.Fits.{meaning};
ghost use Rattle.simplex_run.specs.Table.{with_right};
ghost use Rattle.fraction_tableau.specs.Labels.{as_stop, least_stop as least_stop_of, smaller_stop as smaller_stop_of, step_with, steps_with, IsDivisor};

use crate::columns::label_of;
use crate::entries::{less_product, quotient};
use exact_num::{Exact, Wide};

/// What a pivot makes of the entries of a row: each over a divisor, or less a factor times that of
/// the pivot row.
#[derive(Clone, Copy)]
pub enum Step<N> {
    Over(N),
    Less(N),
}

/// A step that does not fit, and the variable of its column.
#[derive(Clone, Copy)]
pub struct ColumnStop {
    pub label: usize,
    pub wide: Wide,
}

/// The step with an entry and that of the pivot row.
fn step_at<N: Exact>(step: Step<N>, entry: N, pivot: N) -> Result<N, Wide>
    requires { IsDivisor N.fraction step }
    ensures { meaning N.fraction result ≡ step_with N.fraction (unsigned_abs N.LIMIT) step
        (N.fraction entry) (N.fraction pivot) }
{
    match step {
        Step::Over(divisor) => quotient(entry, divisor),
        Step::Less(factor) => less_product(entry, factor, pivot),
    }
}

/// The stop so far, or that of a smaller variable, where its step does not fit.
fn smaller_stop<N: Exact>(best: ColumnStop, label: usize, step: Result<N, Wide>) -> ColumnStop
    ensures { as_stop result ≡ smaller_stop_of label (meaning N.fraction step) (as_stop best) }
{
    match step {
        Ok(_) => best,
        Err(wide) => {
            if label < best.label {
                ColumnStop { label, wide }
            } else {
                best
            }
        }
    }
}

/// Of `found` and of the steps at these places that do not fit the one of the smallest variable.
#[cold]
#[inline(never)]
pub fn least_stop<N: Exact>(
    row: &[N],
    pivot: &[N],
    step: Step<N>,
    places: &[usize],
    labels: &[usize],
    columns: usize,
    found: ColumnStop,
) -> Wide
    requires divisor { IsDivisor N.fraction step }
    requires widths { (length row.now ≡ length labels.now + 1)
        × (length pivot.now ≡ length labels.now + 1) }
    requires places { All (λ place. place < length labels.now + 1) places.now }
    ensures { result ≡ (least_stop_of (steps_with N.fraction (unsigned_abs N.LIMIT) step
        (map N.fraction row.now) (map N.fraction pivot.now))
        (with_right columns labels.now) (as_stop found) places.now).wide }
{
    let mut best = found;
    for i in 0..places.len() {
        let place = places[i];
        let answer = step_at(step, row[place], pivot[place]);
        best = smaller_stop(best, label_of(labels, columns, place), answer);
    }
    best.wide
}
