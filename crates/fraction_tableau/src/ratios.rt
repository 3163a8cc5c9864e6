//! The ratio test over the rows of an arena.
ghost use Rattle.std.specs.Prelude.{◌≡◌, ◌+◌, ◌<◌, ◌≤◌, length, map, unsigned_abs};
ghost use Rattle.std.specs.Option.{option_map};
ghost use Rattle.exact_num.specs.Fits.{meaning};
ghost use Rattle.simplex_run.specs.Choice.{ratio_in};
ghost use Rattle.fraction_tableau.specs.Candidates.{beside_basics, leaving_of, IsPivot};
ghost use Rattle.fraction_tableau.specs.Lists.{fronts};

use crate::candidate::{Candidate, with_ratio};
use crate::entries::quotient;
use exact_num::{Exact, Wide};
use lists::RowArena;

/// The right side over the entry at c, where that is above 0.
fn ratio<N: Exact>(entries: &[N], columns: usize, c: usize) -> Result<Option<N>, Wide>
    requires places { (c < length entries.now) × (columns < length entries.now) }
    ensures { meaning (option_map N.fraction) result
        ≡ ratio_in (unsigned_abs N.LIMIT) columns c (map N.fraction entries.now) }
{
    let entry = entries[c];
    let right_side = entries[columns];
    if entry.sign() > 0 {
        let ratio = quotient(right_side, entry)?;
        Ok(Some(ratio))
    } else {
        Ok(None)
    }
}

/// The place of the row that leaves: of the rows of least ratio that with the smallest basic
/// variable. None where no row limits the entering variable. The first `columns + 1` entries of a
/// row count.
pub fn leaving<N: Exact>(
    basics: &[usize],
    rows: &RowArena<N>,
    columns: usize,
    c: usize,
) -> Result<Option<usize>, Wide>
    requires count { length basics.now ≡ length rows.now.rows }
    requires columns { (c ≤ columns) × (columns < rows.now.width) }
    ensures place { result ≡ leaving_of (unsigned_abs N.LIMIT) columns c
        (beside_basics basics.now (fronts N.fraction (columns + 1) rows.now.rows)) }
    ensures pivot { (r : _) → result ≡ Ok (Some r)
        → IsPivot c r (fronts N.fraction (columns + 1) rows.now.rows) }
{
    let mut best: Option<Candidate<N>> = None;
    for i in 0..rows.len() {
        let entries = &rows.row(i)[..columns + 1];
        let ratio = ratio(entries, columns, c)?;
        best = with_ratio(best, i, basics[i], ratio);
    }
    match best {
        None => Ok(None),
        Some(least) => Ok(Some(least.place)),
    }
}
