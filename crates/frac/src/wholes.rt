//! Whole numbers as fractions.
ghost use Rattle.std.specs.Prelude.{◌≡◌, ◌≤◌, unsigned_abs};
ghost use Rattle.exact_num.specs.Fraction.{whole as whole_of};
ghost use Rattle.frac.specs.Range.{limit};
ghost use Rattle.frac.specs.Value.{fraction_of};

use crate::frac128::Frac128;

/// The whole number `v`, whose size is at most 2^127 - 1.
pub fn whole(v: i128) -> Frac128
    requires { unsigned_abs v ≤ limit }
    ensures { fraction_of result ≡ whole_of v }
{
    Frac128 {
        numerator: v,
        denominator: 1,
    }
}
