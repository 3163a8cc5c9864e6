// Fractions from their parts.
ghost use Rattle.std.specs.Prelude.{◌≡◌};
ghost use Rattle.arithmetic.specs.Sums.{positive_part};
ghost use Rattle.exact_num.specs.Fraction.{over};
ghost use Rattle.frac.specs.ValueOf.{value_from};

use crate::frac128::Frac128;
use exact_num::gcd;

impl Frac128 {
    /// The fraction with this numerator and denominator. None exactly where they are no such parts:
    /// the denominator is below 1, the two have a common divisor above 1, or the numerator is
    /// -2^127. Takes no memory.
    pub fn from_parts(numerator: i128, denominator: i128) -> Option<Frac128>
        ensures { result ≡ value_from (over numerator (positive_part denominator)) }
    {
        if numerator == i128::MIN || denominator < 1 {
            return None;
        }
        let denominator = denominator as u128;
        if gcd(numerator.unsigned_abs(), denominator) != 1 {
            return None;
        }
        Some(Frac128 {
            numerator,
            denominator,
        })
    }
}
