//! The column that enters.
ghost use Rattle.std.specs.Prelude.{◌≡◌, ◌<◌, ◌≤◌, IfSome, length};
ghost use Rattle.std.specs.Option.{option_map};
ghost use Rattle.run_equivalence.specs.WholePivoting.{least_column as least_column_of};
ghost use Rattle.fraction_tableau.specs.Labels.{as_column};

use fraction_tableau::{Entering, with_column};

/// Of the columns whose number is below 0 that of the smallest variable.
pub fn least_column(labels: &[usize], numbers: &[i128]) -> Option<Entering>
    requires { length labels.now ≤ length numbers.now }
    ensures column { option_map as_column result ≡ least_column_of 0 labels.now numbers.now }
    ensures inside { IfSome result (λ c. c.place < length labels.now) }
{
    let mut best: Option<Entering> = None;
    for place in (0..labels.len()).rev() {
        let column = Entering {
            place,
            label: labels[place],
        };
        best = with_column(numbers[place] < 0, column, best);
    }
    best
}
