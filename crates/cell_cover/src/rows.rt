//! Vectors of exact numbers: an entry for the strike, and one for each underlying.

ghost use Rattle.std.specs.Prelude.{ℕ, ◌≡◌, ◌≤◌, pos, replicate};
ghost use Rattle.exact_num.specs.Fraction.{whole};
ghost use Rattle.exact_num.specs.Fits.{meaning};
ghost use Rattle.exact_num.specs.Tests.{greater_of};
ghost use Rattle.frac.specs.Range.{limit};
ghost use Rattle.frac.specs.Value.{fraction_of};
ghost use Rattle.cell_cover.specs.Rows.{row_of, sign_as};
ghost use Rattle.cell_cover.specs.Walk.{add_each, add_signed, at_least_zero, greater_each};

use crate::vectors::{Row, Sign};
use exact_num::{Exact, Wide, plus_product};
use frac::Frac128;

/// Only zeros.
pub fn zero_row() -> Row
    ensures { (count : ℕ) → count ≤ 9 → row_of count result ≡ replicate count (whole (pos 0)) }
{
    Row {
        entries: [Frac128::zero(); 9],
    }
}

/// The total and the product, or the total less the product.
pub fn add_signed(sign: Sign, total: Frac128, a: Frac128, b: Frac128) -> Result<Frac128, Wide>
    ensures { meaning fraction_of result
        ≡ add_signed limit (sign_as sign) (fraction_of total) (fraction_of a) (fraction_of b) }
{
    match sign {
        Sign::Plus => plus_product(total, a, b),
        Sign::Minus => total.less_product(a, b),
    }
}

/// The same of each of the first `count` entries.
pub fn add_each(
    count: usize,
    sign: Sign,
    totals: &Row,
    by: Frac128,
    entries: &Row,
) -> Result<Row, Wide>
    requires { count ≤ 9 }
    ensures { meaning (row_of count) result ≡ add_each limit (sign_as sign)
        (row_of count totals.now) (fraction_of by) (row_of count entries.now) }
{
    let mut made = totals.entries;
    for i in 0..count {
        made[i] = add_signed(sign, totals.entries[i], by, entries.entries[i])?;
    }
    Ok(Row { entries: made })
}

/// The greater of the two.
fn greater(a: Frac128, b: Frac128) -> Frac128
    ensures { fraction_of result ≡ greater_of (fraction_of a) (fraction_of b) }
{
    if a <= b { b } else { a }
}

/// Entry by entry the greater of the two.
pub fn greater_each(count: usize, first: &Row, second: &Row) -> Row
    requires { count ≤ 9 }
    ensures { row_of count result ≡ greater_each (row_of count first.now) (row_of count second.now) }
{
    let mut made = first.entries;
    for i in 0..count {
        made[i] = greater(first.entries[i], second.entries[i]);
    }
    Row { entries: made }
}

/// Each entry, or 0 where it is below.
pub fn at_least_zero(count: usize, entries: &Row) -> Row
    requires { count ≤ 9 }
    ensures { row_of count result ≡ at_least_zero (row_of count entries.now) }
{
    let mut made = entries.entries;
    for i in 0..count {
        made[i] = greater(Frac128::zero(), entries.entries[i]);
    }
    Row { entries: made }
}
