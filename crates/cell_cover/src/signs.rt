//! Tests of exact numbers.

ghost use Rattle.std.specs.Prelude.{◌≡◌};
ghost use Rattle.exact_num.specs.Tests.{is_above_zero, is_not_below_zero, is_same};
ghost use Rattle.frac.specs.Value.{fraction_of};

use exact_num::Exact;
use frac::Frac128;

/// Whether the number is above 0.
pub fn is_above_zero<N: Exact>(number: N) -> bool
    ensures { result ≡ is_above_zero (N.fraction number) }
{
    number.sign() > 0
}

/// Whether the number is not below 0.
pub fn is_not_below_zero<N: Exact>(number: N) -> bool
    ensures { result ≡ is_not_below_zero (N.fraction number) }
{
    number.sign() >= 0
}

/// Whether the two are the same number.
pub fn is_same(a: Frac128, b: Frac128) -> bool
    ensures { result ≡ is_same (fraction_of a) (fraction_of b) }
{
    a == b
}
