// The orders that commands place.
ghost use Rattle.std.specs.Prelude.{◌≡◌, ◌≤◌, take, unsigned_abs};
ghost use Rattle.form.specs.declared.limits.TheConstants.{MAX_STRIKE};
ghost use Rattle.form.specs.BundleOf.{bundle_one};
ghost use Rattle.form.specs.FormOf.{form_of};
ghost use Rattle.command_text.specs.Options.{option_by};
ghost use Rattle.command_text.specs.Within.{IsWithin};
ghost use Rattle.exchange_core.specs.Orders.{order_of};

use command_text::{Command, Kind, option_form};
use form::Bundle;
use order_book::NewOrder;

// One option with the first `count` of the weights, which counts once.
pub(crate) fn one_option(kind: Kind, strike: i64, count: u8, weights: &[i16; 8]) -> Bundle
    requires some { 1 ≤ count }
    requires few { count ≤ 8 }
    requires strike { unsigned_abs strike ≤ MAX_STRIKE }
    ensures { result ≡ bundle_one (form_of (option_by kind strike (take count weights.now))) }
{
    Bundle::one(option_form(kind, strike, count, weights))
}

/// The order that a command places, if it places one.
pub fn order_of(command: &Command) -> Option<NewOrder>
    requires { IsWithin command.now }
    ensures { result ≡ order_of command.now }
{
    match command {
        Command::Trade {
            side,
            account,
            market,
            kind,
            strike,
            price,
            quantity,
            count,
            weights,
        } => Some(NewOrder {
            account: *account,
            market: *market,
            side: *side,
            bundle: one_option(*kind, *strike, *count, weights),
            price: *price,
            quantity: *quantity,
        }),
        Command::Bundle {
            side,
            account,
            market,
            price,
            quantity,
            bundle,
        } => Some(NewOrder {
            account: *account,
            market: *market,
            side: *side,
            bundle: *bundle.get(),
            price: *price,
            quantity: *quantity,
        }),
        _ => None,
    }
}
