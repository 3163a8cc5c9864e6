//! Texts of fractions.
ghost use Rattle.std.specs.Prelude.{◌≡◌, ◌==◌, min, Some, option_map, unsigned_abs};
ghost use Rattle.reply_print.specs.NumberValues.{before_slash, behind_slash, fraction_from, has_fraction_parts, is_fraction_text, lowest_if_small, is_lowest_if_small, largest_size, whole_value};

use crate::numbers::{is_natural, is_whole, value_of_digits};
use exact_num::gcd;

/// The largest size of a part of a fraction, and of a whole number.
pub const LIMIT: u128 = (1 << 127) - 1;

/// What stands before the first `/`, and what stands behind it.
#[derive(Clone, Copy)]
pub struct Halves<'a> {
    pub above: &'a [u8],
    pub below: Option<&'a [u8]>,
}

/// The text before and behind its first `/`.
pub fn split_at_slash(text: &[u8]) -> Halves<'_>
    ensures above { result.above.now ≡ before_slash text.now }
    ensures below { option_map (λ b. b.now) result.below ≡ behind_slash text.now }
{
    for (i, b) in text.iter().enumerate() {
        if *b == b'/' {
            return Halves {
                above: &text[..i],
                below: Some(&text[i + 1..]),
            };
        }
    }
    Halves {
        above: text,
        below: None,
    }
}

fn has_denominator(above: &[u8], below: &[u8]) -> bool
    ensures { result ≡ has_fraction_parts above.now (Some below.now) }
{
    is_whole(above) && above != b"0".as_slice() && is_natural(below) && value_of_digits(below) >= 2
}

// The size of a whole text, or 2^128 - 1 where it is larger.
fn size_of(text: &[u8]) -> u128
    ensures { result ≡ min (unsigned_abs (whole_value text.now)) largest_size }
{
    match text {
        [b'-', digits @ ..] => value_of_digits(digits),
        _ => value_of_digits(text),
    }
}

fn is_lowest(above: u128, below: u128) -> bool
    ensures { result ≡ lowest_if_small above below }
{
    if above > LIMIT || below > LIMIT {
        return true;
    }
    gcd(above, below) == 1
}

#[tactic(auto, using(crate::proofs::Capped::capped, crate::proofs::Capped::capped_one))]
fn is_lowest_text(above: &[u8], below: Option<&[u8]>) -> bool
    ensures { result
        ≡ is_lowest_if_small (fraction_from above.now (option_map (λ b. b.now) below.entry)) }
{
    match below {
        None => is_lowest(size_of(above), 1),
        Some(below) => is_lowest(size_of(above), value_of_digits(below)),
    }
}

fn has_parts(above: &[u8], below: Option<&[u8]>) -> bool
    ensures { result ≡ has_fraction_parts above.now (option_map (λ b. b.now) below.entry) }
{
    match below {
        None => is_whole(above),
        Some(below) => has_denominator(above, below),
    }
}

// A whole text, or one over digits, in lowest terms where its parts are small.
pub(crate) fn is_fraction(text: &[u8]) -> bool
    ensures { result ≡ is_fraction_text text.now }
{
    let halves = split_at_slash(text);
    has_parts(halves.above, halves.below) && is_lowest_text(halves.above, halves.below)
}
