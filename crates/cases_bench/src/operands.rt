//! Operands: fractions of a given size, the same in each run.
use exact_num::Exact;
use std::alloc::{AllocError, Global};

/// How many operands there are.
pub const COUNT: usize = 1024;

// One step of a xorshift generator (Marsaglia, 2003).
fn next(state: u64) -> u64 {
    let a = state ^ state.wrapping_shl(13);
    let b = a ^ (a >> 7);
    b ^ b.wrapping_shl(17)
}

// A number of about `bits` bits, at least 1.
fn number(high: u64, low: u64, bits: u32) -> i128 {
    let wide = (u128::from(high) << 64) | u128::from(low);
    let size = wide.wrapping_shr(128 - bits.min(126)) | 1;
    i128::try_from(size).unwrap_or(1)
}

/// Fractions whose numerators have about `above` bits and their denominators `below`.
pub fn fractions<N: Exact>(
    alloc: Global,
    above: u32,
    below: u32,
    seed: u64,
) -> Result<Vec<N>, AllocError> {
    let mut items = Vec::with_capacity(alloc, COUNT)?;
    let mut state = seed.wrapping_mul(0x9E37_79B9_7F4A_7C15) | 1;
    for _ in 0..COUNT {
        let a = next(state);
        let b = next(a);
        let c = next(b);
        state = next(c);
        let whole = N::from_whole(number(a, b, above)).unwrap_or(N::one());
        let divisor = N::from_whole(number(c, state, below)).unwrap_or(N::one());
        items.push(quotient(whole, divisor))?;
    }
    Ok(items)
}

fn quotient<N: Exact>(a: N, b: N) -> N {
    if b.sign() == 0 {
        a
    } else {
        a.div(b).unwrap_or(a)
    }
}
