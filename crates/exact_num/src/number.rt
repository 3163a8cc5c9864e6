//! What every type of exact numbers offers.
ghost use Rattle.std.specs.Prelude.{◌≡◌, ◌≢◌, ℤ, ◌≤◌, ◌≤ℤ◌, pos, unsigned_abs};
ghost use Rattle.std.specs.Int.{int_signum};
ghost use Rattle.std.specs.Option.{option_map};
ghost use Rattle.exact_num.specs.Fraction.{Fraction, IsLowest, whole, negated, fraction_cmp};
ghost use Rattle.exact_num.specs.Fits.{add_of, sub_of, mul_of, div_of, whole_of, inverse, meaning, misfit as misfit_of};
ghost use Rattle.exact_num.specs.Fits.{sum_within as sum_of, product_within as product_of, whole_within as whole_or_none};
ghost use Rattle.exact_num.specs.Steps.{less_product as less_product_of, less_product_within as less_product_or_none};

use crate::misfit::{Operator, Wide};

/// Fractions in lowest terms whose numerators and denominators are at most `LIMIT` in size.
/// Equality and order are those of the values.
///
/// A sum, product or quotient answers the exact value, or `Wide` with both operands where a
/// number of its computation is above `LIMIT` in size: those of Knuth's method for fractions in
/// lowest terms (The Art of Computer Programming, volume 2, 4.5.1), as `specs/Fits` names them.
/// A type computes the value, or None, by `whole_within`, `sum_within`, `product_within` and
/// `quotient_within`: these answers are short, and a `Wide` is put together here alone.
pub trait Exact: Copy + Ord {
    // the fraction that a value means
    ghost fraction: { Self → Fraction };

    ghost LIMIT: { ℤ };

    /// The largest numerator and denominator, at least 1.
    const LIMIT: i128;

    fn zero() -> Self
        ensures { fraction result ≡ whole (pos 0) };

    fn one() -> Self
        ensures { fraction result ≡ whole (pos 1) };

    /// The whole number `v`, where its size is at most `LIMIT`.
    fn whole_within(v: i128) -> Option<Self>
        ensures { option_map fraction result ≡ whole_or_none (unsigned_abs LIMIT) v };

    /// The whole number `v`, or `Wide` where its size is above `LIMIT`.
    final fn from_whole(v: i128) -> Result<Self, Wide>
        ensures { meaning fraction result ≡ whole_of (unsigned_abs LIMIT) v }
    {
        match Self::whole_within(v) {
            Some(value) => Ok(value),
            None => Err(Wide {
                operator: Operator::Whole,
                left: (v, 1),
                right: (0, 1),
            }),
        }
    }

    /// The numerator, and the denominator, which is at least 1.
    fn parts(self) -> (i128, i128)
        ensures numerator { result.0 ≡ (fraction self).numerator }
        ensures denominator { result.1 ≡ pos (fraction self).denominator };

    /// The sum, where each number of its computation is at most `LIMIT` in size.
    fn sum_within(self, other: Self) -> Option<Self>
        ensures { option_map fraction result
            ≡ sum_of (unsigned_abs LIMIT) (fraction self) (fraction other) };

    /// The product, where each number of its computation is at most `LIMIT` in size.
    fn product_within(self, other: Self) -> Option<Self>
        ensures { option_map fraction result
            ≡ product_of (unsigned_abs LIMIT) (fraction self) (fraction other) };

    /// The quotient by an `other` that is not 0, where each number of its computation is at most
    /// `LIMIT` in size.
    fn quotient_within(self, other: Self) -> Option<Self>
        requires { (fraction other).numerator ≢ pos 0 }
        ensures { option_map fraction result
            ≡ product_of (unsigned_abs LIMIT) (fraction self) (inverse (fraction other)) };

    /// The operation that does not fit, with its operands.
    #[cold]
    #[inline(never)]
    final fn misfit(self, operator: Operator, other: Self) -> Wide
        ensures { result ≡ misfit_of operator (fraction self) (fraction other) }
    {
        Wide {
            operator,
            left: self.parts(),
            right: other.parts(),
        }
    }

    /// The sum, or `Wide`.
    #[inline(always)]
    final fn add(self, other: Self) -> Result<Self, Wide>
        ensures { meaning fraction result
            ≡ add_of (unsigned_abs LIMIT) (fraction self) (fraction other) }
    {
        match self.sum_within(other) {
            Some(value) => Ok(value),
            None => Err(self.misfit(Operator::Add, other)),
        }
    }

    /// The difference: the sum with the negated `other`, which a `Wide` names as that sum.
    #[inline(always)]
    final fn sub(self, other: Self) -> Result<Self, Wide>
        ensures { meaning fraction result
            ≡ sub_of (unsigned_abs LIMIT) (fraction self) (fraction other) }
    {
        self.add(other.neg())
    }

    /// The product, or `Wide`.
    #[inline(always)]
    final fn mul(self, other: Self) -> Result<Self, Wide>
        ensures { meaning fraction result
            ≡ mul_of (unsigned_abs LIMIT) (fraction self) (fraction other) }
    {
        match self.product_within(other) {
            Some(value) => Ok(value),
            None => Err(self.misfit(Operator::Mul, other)),
        }
    }

    /// The number less the product of the others, where each number of its computation is at most
    /// `LIMIT` in size.
    fn less_product_within(self, a: Self, b: Self) -> Option<Self>
        ensures { option_map fraction result
            ≡ less_product_or_none (unsigned_abs LIMIT) (fraction self) (fraction a) (fraction b) }
    {
        let product = a.product_within(b)?;
        self.sum_within(product.neg())
    }

    /// The number less the product of the others, or the first `Wide`: that of the product, else
    /// that of the difference.
    #[inline(always)]
    final fn less_product(self, a: Self, b: Self) -> Result<Self, Wide>
        ensures { meaning fraction result
            ≡ less_product_of (unsigned_abs LIMIT) (fraction self) (fraction a) (fraction b) }
    {
        match self.less_product_within(a, b) {
            Some(value) => Ok(value),
            None => self.less_product_by_steps(a, b),
        }
    }

    /// The same, one step after the other.
    #[cold]
    #[inline(never)]
    final fn less_product_by_steps(self, a: Self, b: Self) -> Result<Self, Wide>
        ensures { meaning fraction result
            ≡ less_product_of (unsigned_abs LIMIT) (fraction self) (fraction a) (fraction b) }
    {
        let product = a.mul(b)?;
        self.sub(product)
    }

    /// The quotient by an `other` that is not 0, or `Wide`.
    #[inline(always)]
    final fn div(self, other: Self) -> Result<Self, Wide>
        requires { (fraction other).numerator ≢ pos 0 }
        ensures { meaning fraction result
            ≡ div_of (unsigned_abs LIMIT) (fraction self) (fraction other) }
    {
        match self.quotient_within(other) {
            Some(value) => Ok(value),
            None => Err(self.misfit(Operator::Div, other)),
        }
    }

    /// The number with its sign turned.
    fn neg(self) -> Self
        ensures { fraction result ≡ negated (fraction self) };

    /// -1, 0 or 1: below 0, 0 or above 0.
    fn sign(self) -> i8
        ensures { result ≡ int_signum (fraction self).numerator };

    // ---- the laws, on which generic code rests
    ghost limit_positive: { pos 1 ≤ℤ LIMIT };

    ghost lowest: { (x : Self) → IsLowest (fraction x) };

    ghost numerator_fits: { (x : Self) →
        unsigned_abs (fraction x).numerator ≤ unsigned_abs LIMIT };

    ghost denominator_fits: { (x : Self) → (fraction x).denominator ≤ unsigned_abs LIMIT };

    // two values of one fraction are one value
    ghost determined: { (x y : Self) → fraction x ≡ fraction y → x ≡ y };

    // the order is that of the fractions
    ghost by_value: { (x y : Self) → Self.cmp x y ≡ fraction_cmp (fraction x) (fraction y) };
}
