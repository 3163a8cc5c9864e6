//! Texts of numbers.
ghost use Rattle.std.specs.Prelude.{◌≡◌, min};
ghost use Rattle.std.specs.Char.{is_ascii_digit};
ghost use Rattle.std.specs.List.{list_all};
ghost use Rattle.reply_print.specs.NumberValues.{is_whole_text as whole_text, largest_size};
ghost use Rattle.form.specs.Naturals.{is_natural as natural_text, natural_value};

/// The value of digits, or 2^128 - 1 where it is larger.
pub fn value_of_digits(digits: &[u8]) -> u128
    ensures { result ≡ min (natural_value digits.now) largest_size }
{
    let mut value = 0u128;
    for digit in digits {
        let step = u128::from(digit.saturating_sub(b'0'));
        value = value.saturating_mul(10).saturating_add(step);
    }
    value
}

fn are_digits(text: &[u8]) -> bool
    ensures { result ≡ list_all is_ascii_digit text.now }
{
    text.iter().all(|b| b.is_ascii_digit())
}

// Digits, the first of which is 0 only where it is alone.
#[tactic(auto, using(crate::proofs::Naturals::long_natural, crate::proofs::Naturals::one_digit, crate::proofs::Naturals::no_digits))]
pub(crate) fn is_natural(text: &[u8]) -> bool
    ensures { result ≡ natural_text text.now }
{
    if text.is_empty() {
        return false;
    }
    if !are_digits(text) {
        return false;
    }
    if text.len() == 1 {
        return true;
    }
    text[0] != b'0'
}

// A natural number, or `-` before one that is not 0.
pub(crate) fn is_whole(text: &[u8]) -> bool
    ensures { result ≡ whole_text text.now }
{
    match text {
        [] => false,
        [b'-', digits @ ..] => is_natural(digits) && value_of_digits(digits) > 0,
        _ => is_natural(text),
    }
}
