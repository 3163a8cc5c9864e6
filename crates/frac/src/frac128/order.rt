//! The order by value.
ghost use Rattle.std.specs.Prelude.{◌≡◌};
ghost use Rattle.exact_num.specs.Fraction.{fraction_cmp};
ghost use Rattle.frac.specs.Value.{fraction_of};

use super::Frac128;
use crate::quotients::compare;
use std::cmp::Ordering;

/// The order of two fractions by value: by their signs, and else by quotients and remainders.
pub fn order(x: Frac128, y: Frac128) -> Ordering
    ensures { result ≡ fraction_cmp (fraction_of x) (fraction_of y) }
{
    let (left, right) = (x.numerator.unsigned_abs(), y.numerator.unsigned_abs());
    match (x.numerator < 0, y.numerator < 0) {
        (true, false) => Ordering::Less,
        (false, true) => Ordering::Greater,
        (false, false) => compare(left, x.denominator, right, y.denominator),
        (true, true) => compare(right, y.denominator, left, x.denominator),
    }
}
