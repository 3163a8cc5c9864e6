//! Calls and puts.

ghost use Rattle.std.specs.Prelude.{◌≡◌, ◌≤◌, ◌≢◌, length, neg_ℤ};
ghost use Rattle.form.specs.Vector.{call_of, put_of};
ghost use Rattle.form.specs.Payoff.{option_of};

use crate::forms::Form;

/// The call with this strike, in whole prices, on a basket with these weights: it pays what the
/// basket is worth above the strike. There are 1 to 8 weights, one for each underlying of the
/// market.
pub fn call(strike: i64, weights: &[i16]) -> Form
    requires weights { (1 ≤ length weights.now) × (length weights.now ≤ 8) }
    requires strike { strike ≢ i64.MIN }
    ensures { option_of result ≡ call_of strike weights.now }
{
    let mut entries = [0; 9];
    entries[0] = -strike;
    for (i, weight) in weights.iter().enumerate() {
        entries[i + 1] = i64::from(*weight);
    }
    Form {
        count: weights.len() as u8 + 1,
        entries,
    }
}

/// The put with this strike, in whole prices, on a basket with these weights: it pays what the
/// basket is worth below the strike. There are 1 to 8 weights, one for each underlying of the
/// market.
pub fn put(strike: i64, weights: &[i16]) -> Form
    requires weights { (1 ≤ length weights.now) × (length weights.now ≤ 8) }
    ensures { option_of result ≡ put_of strike weights.now }
{
    let mut entries = [0; 9];
    entries[0] = strike;
    for (i, weight) in weights.iter().enumerate() {
        entries[i + 1] = opposite(*weight);
    }
    Form {
        count: weights.len() as u8 + 1,
        entries,
    }
}

/// The weight with the other sign.
fn opposite(weight: i16) -> i64
    ensures { result ≡ neg_ℤ weight }
{
    -i64::from(weight)
}
