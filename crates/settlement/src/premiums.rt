//! Premiums of fills.

ghost use Rattle.std.specs.Prelude.{◌≡◌, ◌*◌, ◌≤◌};
ghost use Rattle.form.specs.declared.limits.TheConstants.{MAX_PRICE, MAX_QUANTITY};
ghost use Rattle.frac.specs.Value.{fraction_of};
ghost use Rattle.settlement.specs.Premium.{IsOrderFill, premium_of};

use crate::rounding::{rounded_down, rounded_up};
use form::Side;
use frac::Frac128;

/// The premium of a fill at the order's limit price, in ticks: fill times price, rounded up for a
/// buyer, who pays it, and down for a seller, who gets it. So each rounding favours the house. The
/// fill is 0 to 1,000,000 options and the price at most 10^12 ticks. Takes no memory.
pub fn premium(side: &Side, fill: &Frac128, price: u64) -> u64
    requires fill { IsOrderFill (fraction_of fill.now) }
    requires price { price ≤ MAX_PRICE }
    ensures premium { result ≡ premium_of side.now (fraction_of fill.now) price }
    ensures fits { result ≤ MAX_QUANTITY * MAX_PRICE }
{
    match side {
        Side::Buy => rounded_up(fill, price.into()),
        Side::Sell => rounded_down(fill, price.into()),
    }
}
