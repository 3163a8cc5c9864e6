//! Tests of signs, by which cases meet the conditions of calls.

ghost use Rattle.std.specs.Prelude.{IsTrue, ◌≤ℤ◌, ◌<◌, pos};
ghost use Rattle.std.specs.List.{All, sum_by};
ghost use Rattle.arithmetic.specs.Sums.{positive_part};
ghost use Rattle.frac.specs.Value.{fraction_of};

use exact_num::Exact;
use frac::Frac128;

/// Whether none of the numbers is below 0.
pub fn is_none_below_zero(numbers: &[Frac128]) -> bool
    ensures { IsTrue result → All (λ x. pos 0 ≤ℤ (fraction_of x).numerator) numbers.now }
{
    numbers.iter().all(|x| x.sign() >= 0)
}

/// Whether some number is above 0.
pub fn is_any_above_zero(numbers: &[Frac128]) -> bool
    ensures { IsTrue result
        → 0 < sum_by (λ x. positive_part (fraction_of x).numerator) numbers.now }
{
    numbers.iter().any(|x| x.sign() > 0)
}
