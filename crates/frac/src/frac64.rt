//! Fractions whose numerator and denominator are at most 2^63 - 1 in size.
//!
//! Sums and products are those of 128 bits with this limit, compiled anew for operands of 64 bits.
ghost use Rattle.std.specs.Prelude.{◌≡◌, ◌≤◌, pos, ◌*ℤ◌, unsigned_abs, refl};
ghost use Rattle.std.specs.Ordering.{is_eq, as_partial_cmp};
ghost use Rattle.std.proofs.Common.{lit≤};
ghost use Rattle.exact_num.specs.Fraction.{over, whole as whole_of, IsLowest};
ghost use Rattle.exact_num.specs.Laws.{IsWithin};
ghost use Rattle.exact_num.proofs.Order.{values_in_order, values_equal, values_partly_equal, values_partly_ordered};
ghost use Rattle.arithmetic.proofs.Integers.{le_pos};
ghost use Rattle.frac.specs.Range.{narrow_limit};

use crate::products::{product, reciprocal};
use crate::sizes::is_in_range;
use crate::sums::sum;
use crate::widths::{narrow, widen};
use exact_num::Exact;
use std::cmp::Ordering;

// The limit, as a size.
const LARGEST: u128 = i64::MAX as u128;

/// A fraction in lowest terms, with a numerator of at most 2^63 - 1 in size and a denominator
/// from 1 to 2^63 - 1. Its operations are those of `Exact`.
#[derive(Clone, Copy, Debug)]
pub struct Frac64 {
    pub(crate) numerator: i64,
    pub(crate) denominator: u64,
    ghost lowest: { IsLowest (over numerator denominator) },
    ghost within: { IsWithin narrow_limit (over numerator denominator) },
}

impl PartialEq for Frac64 {
    ghost use Rattle.frac.specs.Narrow.{narrow_fraction, narrow_order};

    ghost eq = { λ x y. is_eq (narrow_order x y) };

    ghost laws = { values_partly_equal narrow_fraction (λ x. x.lowest) };

    fn eq(&self, other: &Frac64) -> bool {
        widen(*self) == widen(*other)
    }
}

impl Eq for Frac64 {
    ghost use Rattle.frac.specs.Narrow.{narrow_fraction};

    ghost laws = { values_equal narrow_fraction (λ x. x.lowest) };
}

impl Ord for Frac64 {
    ghost use Rattle.frac.specs.Narrow.{narrow_fraction, narrow_order};

    ghost cmp = { narrow_order };

    ghost total = { values_in_order narrow_fraction (λ x. x.lowest) };

    ghost matches_partial_cmp = { λ x y. refl };

    ghost matches_eq = { λ x y. refl };

    fn cmp(&self, other: &Frac64) -> Ordering {
        let left = self.cross_product(*other);
        let right = other.cross_product(*self);
        left.cmp(&right)
    }
}

impl PartialOrd for Frac64 {
    ghost use Rattle.frac.specs.Narrow.{narrow_fraction, narrow_order};

    ghost partial_cmp = { as_partial_cmp narrow_order };

    ghost laws = { values_partly_ordered narrow_fraction (λ x. x.lowest) };

    fn partial_cmp(&self, other: &Frac64) -> Option<Ordering> {
        Some(self.cmp(other))
    }
}

impl Frac64 {
    ghost use Rattle.frac.specs.Narrow.{narrow_fraction};

    // The numerator times the denominator of `other`, which fits 128 bits.
    fn cross_product(self, other: Frac64) -> i128
        ensures { result ≡ self.numerator *ℤ pos other.denominator }
    {
        self.numerator as i128 * other.denominator as i128
    }

    // The whole number `v`.
    fn whole(v: i64) -> Frac64
        requires { unsigned_abs v ≤ narrow_limit }
        ensures { narrow_fraction result ≡ whole_of v }
    {
        Frac64 {
            numerator: v,
            denominator: 1,
        }
    }
}

impl Exact for Frac64 {
    ghost use Rattle.frac.specs.Narrow.{narrow_fraction, same_narrow_value};

    ghost fraction = { narrow_fraction };

    ghost LIMIT = { pos narrow_limit };

    const LIMIT: i128 = i64::MAX as i128;

    fn zero() -> Self {
        Frac64::whole(0)
    }

    fn one() -> Self {
        Frac64::whole(1)
    }

    fn whole_within(v: i128) -> Option<Self> {
        if is_in_range(v, LARGEST) {
            Some(Frac64::whole(v as i64))
        } else {
            None
        }
    }

    fn parts(self) -> (i128, i128) {
        (self.numerator as i128, self.denominator as i128)
    }

    // A call with a short answer: the long one, with room for a misfit, is put together where the
    // caller is compiled.
    #[inline(never)]
    fn sum_within(self, other: Self) -> Option<Self> {
        let value = sum(widen(self), widen(other), LARGEST)?;
        Some(narrow(value))
    }

    #[inline(never)]
    fn product_within(self, other: Self) -> Option<Self> {
        let value = product(widen(self), widen(other), LARGEST)?;
        Some(narrow(value))
    }

    #[inline(never)]
    fn quotient_within(self, other: Self) -> Option<Self> {
        let value = product(widen(self), reciprocal(widen(other)), LARGEST)?;
        Some(narrow(value))
    }

    fn neg(self) -> Self {
        Frac64 {
            numerator: -self.numerator,
            denominator: self.denominator,
        }
    }

    fn sign(self) -> i8 {
        self.numerator.signum() as i8
    }

    ghost limit_positive = { le_pos _ _ (lit≤ tt) };

    ghost lowest = { λ x. x.lowest };

    ghost numerator_fits = { λ x. x.within.above };

    ghost denominator_fits = { λ x. x.within.below };

    ghost determined = { same_narrow_value };

    ghost by_value = { λ x y. refl };
}
