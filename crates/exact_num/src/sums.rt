//! Sums of products of exact numbers, step by step.

ghost use Rattle.std.specs.Prelude.{◌≡◌, unsigned_abs};
ghost use Rattle.exact_num.specs.Fits.{meaning};
ghost use Rattle.exact_num.specs.Steps.{plus_product};

use crate::misfit::Wide;
use crate::number::Exact;

/// The total and the product of `a` and `b`: the product first, then the sum. Takes no memory.
pub fn plus_product<N: Exact>(total: N, a: N, b: N) -> Result<N, Wide>
    ensures { meaning N.fraction result
        ≡ plus_product (unsigned_abs N.LIMIT) (N.fraction total) (N.fraction a) (N.fraction b) }
{
    let product = a.mul(b)?;
    total.add(product)
}
