//! Amounts rounded up to whole ticks.
ghost use Rattle.std.specs.Prelude.{◌≡◌, ◌≤◌, unsigned_abs};
ghost use Rattle.frac.specs.Range.{limit as largest};
ghost use Rattle.portfolio_margin.specs.Need.{ceil_of};

/// n / d, rounded up.
pub(crate) fn ceil_of(n: i128, d: u128) -> i128
    requires some { 1 ≤ d }
    requires small { unsigned_abs n ≤ largest }
    ensures ceil { result ≡ ceil_of n d }
    ensures small { unsigned_abs result ≤ unsigned_abs n }
{
    let size = n.unsigned_abs();
    if n < 0 {
        -((size / d) as i128)
    } else {
        size.div_ceil(d) as i128
    }
}
