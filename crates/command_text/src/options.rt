// The option of a trade or of a leg.
ghost use Rattle.std.specs.Prelude.{◌≡◌, ◌≤◌, take, unsigned_abs};
ghost use Rattle.form.specs.declared.limits.TheConstants.{MAX_STRIKE};
ghost use Rattle.form.specs.FormOf.{form_of};
ghost use Rattle.command_text.specs.Options.{option_by};

use crate::command::Kind;
use form::{Form, call, put};

/// The form of an option with a strike, in whole prices, and the first `count` of the weights.
/// Takes no memory.
pub fn option_form(kind: Kind, strike: i64, count: u8, weights: &[i16; 8]) -> Form
    requires some { 1 ≤ count }
    requires few { count ≤ 8 }
    requires strike { unsigned_abs strike ≤ MAX_STRIKE }
    ensures { result ≡ form_of (option_by kind strike (take count weights.now)) }
{
    let weights = &weights[..count as usize];
    match kind {
        Kind::Call => call(strike, weights),
        Kind::Put => put(strike, weights),
    }
}
