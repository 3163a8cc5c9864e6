//! Numbers, read from texts.

use exact_num::{Exact, Wide};
use frac::Frac128;
use std::alloc::{AllocError, Global};

/// A numerator and a denominator.
pub type Parts = (i128, i128);

/// The whole number of a text. One that is none stands for -2^127, which fits no fraction.
pub fn whole(text: &str) -> i128 {
    text.parse().unwrap_or(i128::MIN)
}

/// The two words of a text with a blank between them.
pub fn pair(text: &str) -> (&str, &str) {
    text.trim().split_once(' ').unwrap_or((text, ""))
}

/// The numerator and the denominator of a text like `-3` or `2/7`.
pub fn parts(text: &str) -> Parts {
    let (above, below) = text.split_once('/').unwrap_or((text, "1"));
    (whole(above), whole(below))
}

/// The quotient of two numbers, and the first of them where the second is 0.
pub fn quotient<N: Exact>(left: N, right: N) -> Result<N, Wide> {
    if right.sign() == 0 {
        Ok(left)
    } else {
        left.div(right)
    }
}

/// The fraction of a numerator and a denominator, where it fits.
pub fn number<N: Exact>((above, below): Parts) -> Result<N, Wide> {
    quotient(N::from_whole(above)?, N::from_whole(below)?)
}

/// The fractions of a text, with spaces between them. What is none, or does not fit, is left out.
/// The only error is want of memory.
pub fn numbers(alloc: Global, text: &str) -> Result<Vec<Frac128>, AllocError> {
    let mut all = Vec::new(alloc);
    for word in text.split_whitespace() {
        if let Ok(fraction) = number(parts(word)) {
            all.push(fraction)?;
        }
    }
    Ok(all)
}
