//! Fractions whose numerator and denominator are at most 2^127 - 1 in size.
ghost use Rattle.std.specs.Prelude.{◌≡◌, ◌≤◌, ◌<◌, ◌^◌, ◌-◌, pos, unsigned_abs, refl};
ghost use Rattle.std.specs.Option.{option_map};
ghost use Rattle.std.specs.Ordering.{is_eq, as_partial_cmp};
ghost use Rattle.std.proofs.Common.{lit≤};
ghost use Rattle.exact_num.specs.Fraction.{over, IsLowest};
ghost use Rattle.exact_num.proofs.Order.{values_in_order, values_equal, values_partly_equal, values_partly_ordered};
ghost use Rattle.arithmetic.proofs.Integers.{le_pred, le_pos};
ghost use Rattle.frac.specs.Range.{limit};

mod order;

use crate::products::{product, reciprocal};
use crate::sizes::is_in_range;
use crate::small::{is_small, small_less_product, small_product, small_sum};
use crate::sums::sum;
use crate::wholes::whole;
use exact_num::Exact;
use order::order;
use std::cmp::Ordering;

// The limit, as a size.
const LARGEST: u128 = i128::MAX as u128;

/// A fraction in lowest terms, with a numerator of at most 2^127 - 1 in size and a denominator
/// from 1 to 2^127 - 1. Its operations are those of `Exact`.
#[derive(Clone, Copy, Debug)]
pub struct Frac128 {
    pub(crate) numerator: i128,
    pub(crate) denominator: u128,
    ghost lowest: { IsLowest (over numerator denominator) },
    ghost above_fits: { unsigned_abs numerator < 2 ^ 127 },
    ghost below_fits: { denominator < 2 ^ 127 },
}

impl PartialEq for Frac128 {
    ghost use Rattle.frac.specs.Value.{fraction_of, order_of};

    ghost eq = { λ x y. is_eq (order_of x y) };

    ghost laws = { values_partly_equal fraction_of (λ x. x.lowest) };

    fn eq(&self, other: &Frac128) -> bool {
        self.numerator == other.numerator && self.denominator == other.denominator
    }
}

impl Eq for Frac128 {
    ghost use Rattle.frac.specs.Value.{fraction_of};

    ghost laws = { values_equal fraction_of (λ x. x.lowest) };
}

impl Ord for Frac128 {
    ghost use Rattle.frac.specs.Value.{fraction_of, order_of};

    ghost cmp = { order_of };

    ghost total = { values_in_order fraction_of (λ x. x.lowest) };

    ghost matches_partial_cmp = { λ x y. refl };

    ghost matches_eq = { λ x y. refl };

    fn cmp(&self, other: &Frac128) -> Ordering {
        order(*self, *other)
    }
}

impl PartialOrd for Frac128 {
    ghost use Rattle.frac.specs.Value.{fraction_of, order_of};

    ghost partial_cmp = { as_partial_cmp order_of };

    ghost laws = { values_partly_ordered fraction_of (λ x. x.lowest) };

    fn partial_cmp(&self, other: &Frac128) -> Option<Ordering> {
        Some(self.cmp(other))
    }
}

impl Frac128 {
    ghost use Rattle.exact_num.specs.Fits.{sum_within, product_within};
    ghost use Rattle.exact_num.specs.Steps.{less_product_within};
    ghost use Rattle.frac.specs.Value.{fraction_of};

    // The sum of any fractions. It is a call with a short answer, without room for a misfit.
    #[inline(never)]
    fn long_sum(self, other: Frac128) -> Option<Frac128>
        ensures { option_map fraction_of result
            ≡ sum_within limit (fraction_of self) (fraction_of other) }
    {
        sum(self, other, LARGEST)
    }

    // The product of any fractions.
    #[inline(never)]
    fn long_product(self, other: Frac128) -> Option<Frac128>
        ensures { option_map fraction_of result
            ≡ product_within limit (fraction_of self) (fraction_of other) }
    {
        product(self, other, LARGEST)
    }

    // The number less the product of any fractions, none of which is tried as a small one.
    #[inline(never)]
    fn long_less_product(self, a: Frac128, b: Frac128) -> Option<Frac128>
        ensures { option_map fraction_of result
            ≡ less_product_within limit (fraction_of self) (fraction_of a) (fraction_of b) }
    {
        let product = a.long_product(b)?;
        self.long_sum(product.neg())
    }

    /// The same value in 128 bits. Takes no memory.
    pub fn of<N: Exact>(value: N) -> Frac128
        ensures { fraction_of result ≡ N.fraction value }
    {
        // A limit of 128 bits lets no part be -2^127.
        prove!(N::LIMIT <= i128::MAX);
        let (numerator, denominator) = value.parts();
        Frac128 {
            numerator,
            denominator: denominator as u128,
        }
    }
}

impl Exact for Frac128 {
    ghost use Rattle.frac.specs.Value.{fraction_of, same_value};

    ghost fraction = { fraction_of };

    ghost LIMIT = { pos limit };

    const LIMIT: i128 = i128::MAX;

    fn zero() -> Self {
        whole(0)
    }

    fn one() -> Self {
        whole(1)
    }

    fn whole_within(v: i128) -> Option<Self> {
        if is_in_range(v, LARGEST) {
            Some(whole(v))
        } else {
            None
        }
    }

    fn parts(self) -> (i128, i128) {
        (self.numerator, self.denominator as i128)
    }

    // Sums, products and differences of small fractions are put together where the caller is
    // compiled.
    #[inline(always)]
    fn sum_within(self, other: Self) -> Option<Self> {
        if is_small(self) && is_small(other) {
            Some(small_sum(self, other))
        } else {
            self.long_sum(other)
        }
    }

    #[inline(always)]
    fn product_within(self, other: Self) -> Option<Self> {
        if is_small(self) && is_small(other) {
            Some(small_product(self, other))
        } else {
            self.long_product(other)
        }
    }

    #[inline(always)]
    fn quotient_within(self, other: Self) -> Option<Self> {
        self.product_within(reciprocal(other))
    }

    #[inline(always)]
    fn less_product_within(self, a: Self, b: Self) -> Option<Self> {
        if is_small(self) && is_small(a) && is_small(b) {
            Some(small_less_product(self, a, b))
        } else {
            self.long_less_product(a, b)
        }
    }

    fn neg(self) -> Self {
        Frac128 {
            numerator: -self.numerator,
            denominator: self.denominator,
        }
    }

    fn sign(self) -> i8 {
        self.numerator.signum() as i8
    }

    ghost limit_positive = { le_pos _ _ (lit≤ tt) };

    ghost lowest = { λ x. x.lowest };

    ghost numerator_fits = { λ x. le_pred _ _ x.above_fits };

    ghost denominator_fits = { λ x. le_pred _ _ x.below_fits };

    ghost determined = { same_value };

    ghost by_value = { λ x y. refl };
}
