//! The columns: which one enters, and the step of a row that is told.
ghost use Rattle.std.specs.Prelude.{◌≡◌, ◌<◌, ◌≤◌, IfSome, length, map};
ghost use Rattle.std.specs.Option.{option_map};
ghost use Rattle.simplex_run.specs.Choice.{least_below, smaller as smaller_of};
ghost use Rattle.simplex_run.specs.Table.{label_at, with_right};
ghost use Rattle.fraction_tableau.specs.Labels.{as_column, with_column as with_column_of};

use exact_num::Exact;

/// The column that enters: its place, and the variable that is its label.
#[derive(Clone, Copy)]
pub struct Entering {
    pub place: usize,
    pub label: usize,
}

/// This column, or a later one of a smaller variable.
fn smaller(column: Entering, later: Option<Entering>) -> Entering
    ensures { as_column result ≡ smaller_of (as_column column) (option_map as_column later) }
{
    let Some(other) = later else { return column };
    if other.label < column.label {
        other
    } else {
        column
    }
}

/// This column, where its entry is below 0, or the best of later ones.
pub fn with_column(below: bool, column: Entering, later: Option<Entering>) -> Option<Entering>
    ensures { option_map as_column result
        ≡ with_column_of below (as_column column) (option_map as_column later) }
{
    if below {
        Some(smaller(column, later))
    } else {
        later
    }
}

/// Of the columns whose entry is below 0 that of the smallest variable.
pub fn least_column<N: Exact>(labels: &[usize], entries: &[N]) -> Option<Entering>
    requires { length labels.now ≤ length entries.now }
    ensures column { option_map as_column result
        ≡ least_below 0 labels.now (map N.fraction entries.now) }
    ensures inside { IfSome result (λ c. c.place < length labels.now) }
{
    let mut best: Option<Entering> = None;
    for place in (0..labels.len()).rev() {
        let column = Entering {
            place,
            label: labels[place],
        };
        best = with_column(entries[place].sign() < 0, column, best);
    }
    best
}

/// The label at a place, where the right side is counted as the variable after the last.
pub fn label_of(labels: &[usize], columns: usize, place: usize) -> usize
    requires { place ≤ length labels.now }
    ensures { result ≡ label_at (with_right columns labels.now) place }
{
    if place < labels.len() {
        labels[place]
    } else {
        columns
    }
}
