//! Steps on entries. One with an operand 0 is set down without computing it, since it always fits.
ghost use Rattle.std.specs.Prelude.{◌≡◌, ◌≢◌, ◌≤◌, length, map, pos, unsigned_abs, vec_capacity};
ghost use Rattle.exact_num.specs.Fits.{div_of, meaning};
ghost use Rattle.simplex_run.specs.Pivot.{less_product as less_product_of};
ghost use Rattle.fraction_tableau.specs.Nonzero.{is_zero as is_zero_of, nonzero_places};

use exact_num::{Exact, Wide};
use lists::push_within;

/// Whether a number is 0.
pub fn is_zero<N: Exact>(x: N) -> bool
    ensures { result ≡ is_zero_of (N.fraction x) }
{
    x.sign() == 0
}

/// The entry over the divisor.
pub fn quotient<N: Exact>(entry: N, divisor: N) -> Result<N, Wide>
    requires { (N.fraction divisor).numerator ≢ pos 0 }
    ensures { meaning N.fraction result
        ≡ div_of (unsigned_abs N.LIMIT) (N.fraction entry) (N.fraction divisor) }
{
    if is_zero(entry) {
        Ok(entry)
    } else {
        entry.div(divisor)
    }
}

/// The entry less `factor` times the entry `pivot` of the pivot row.
// it has two callers, and a call for each entry takes 3 % of a run
#[inline(always)]
pub fn less_product<N: Exact>(entry: N, factor: N, pivot: N) -> Result<N, Wide>
    ensures { meaning N.fraction result ≡ less_product_of (unsigned_abs N.LIMIT)
        (N.fraction factor) (N.fraction entry) (N.fraction pivot) }
{
    if is_zero(entry) {
        let product = factor.mul(pivot)?;
        Ok(product.neg())
    } else {
        entry.less_product(factor, pivot)
    }
}

/// Lists the places where the row is not 0.
pub fn list_nonzero<N: Exact>(row: &[N], places: &mut Vec<usize>)
    requires { length row.now ≤ vec_capacity places.old }
    ensures places { places.new.items ≡ nonzero_places (map N.fraction row.now) }
    ensures capacity { vec_capacity places.old ≤ vec_capacity places.new }
{
    places.clear();
    for (j, entry) in row.iter().enumerate() {
        if !is_zero(*entry) {
            push_within(places, j);
        }
    }
}
