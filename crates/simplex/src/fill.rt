//! Rows of numbers, filled from their front on.
ghost use Rattle.std.specs.Prelude.{◌≡◌, ◌++◌, IfOk, OnOk, map, replicate, vec_len};
ghost use Rattle.simplex_run.specs.Places.{fraction_zero};

use exact_num::Exact;
use std::alloc::{AllocError, Global};

/// Adds `count` zeros.
pub fn push_zeros<N: Exact>(row: &mut Vec<N>, count: usize) -> Result<(), AllocError>
    ensures { OnOk result (map N.fraction row.new.items
        ≡ map N.fraction row.old.items ++ replicate count fraction_zero) }
{
    for _i in 0..count {
        row.push(N::zero())?;
    }
    Ok(())
}

/// As many zeros.
pub fn zeros<N: Exact>(alloc: Global, count: usize) -> Result<Vec<N>, AllocError>
    ensures count { IfOk result (λ row. vec_len row ≡ count) }
    ensures zeros { IfOk result (λ row.
        map N.fraction row.items ≡ replicate count fraction_zero) }
{
    let mut row = Vec::with_capacity(alloc, count)?;
    push_zeros(&mut row, count)?;
    Ok(row)
}
