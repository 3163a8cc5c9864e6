//! Sums that a sell subtracts from.

ghost use Rattle.std.specs.Prelude.{◌≡◌, unsigned_abs};
ghost use Rattle.exact_num.specs.Fits.{meaning};
ghost use Rattle.form.specs.Steps.{add_for_side};

use crate::orders::Side;
use exact_num::{Exact, Wide, plus_product};

/// The total and the product of `a` and `b`, which a sell subtracts: nothing is computed where one
/// of the two is 0, as most fills are and what many options pay. Takes no memory.
#[inline(always)]
pub fn add_for_side<N: Exact>(total: N, side: Side, a: N, b: N) -> Result<N, Wide>
    ensures { let limit = unsigned_abs N.LIMIT in
        meaning N.fraction result
        ≡ add_for_side limit (N.fraction total) side (N.fraction a) (N.fraction b) }
{
    if a.sign() == 0 || b.sign() == 0 {
        return Ok(total);
    }
    match side {
        Side::Buy => plus_product(total, a, b),
        Side::Sell => total.less_product(a, b),
    }
}
