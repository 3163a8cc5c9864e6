//! From one width to the other.
ghost use Rattle.std.specs.Prelude.{◌≡◌};
ghost use Rattle.exact_num.specs.Laws.{IsWithin};
ghost use Rattle.frac.specs.Range.{narrow_limit};
ghost use Rattle.frac.specs.Value.{fraction_of};
ghost use Rattle.frac.specs.Narrow.{narrow_fraction};

use crate::frac64::Frac64;
use crate::frac128::Frac128;

/// The same value in 128 bits. Takes no memory.
pub fn widen(f: Frac64) -> Frac128
    ensures { fraction_of result ≡ narrow_fraction f }
{
    Frac128 {
        numerator: f.numerator as i128,
        denominator: f.denominator as u128,
    }
}

/// The same value in 64 bits, where it fits.
pub(crate) fn narrow(value: Frac128) -> Frac64
    requires { IsWithin narrow_limit (fraction_of value) }
    ensures { narrow_fraction result ≡ fraction_of value }
{
    Frac64 {
        numerator: value.numerator as i64,
        denominator: value.denominator as u64,
    }
}
