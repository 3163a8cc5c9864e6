//! The next price to probe: where the line through an outcome is at the surplus of the batch.
ghost use Rattle.std.specs.Prelude.{◌≡◌, ◌≤◌, min};
ghost use Rattle.exact_num.specs.Fraction.{IsNotBelowZero};
ghost use Rattle.frac.specs.Value.{fraction_of};
ghost use Rattle.form.specs.declared.limits.TheConstants.{MAX_PRICE};
ghost use Rattle.option_quotes.specs.Implied.{next_along, next_better, price_along, ticks_along};

use crate::ends::Probed;
use cert_check::Outcome;
use form::{MAX_PRICE, Side};
use newton_step::whole_steps;

/// By how many ticks the price may get worse until the line through the outcome's surplus, whose
/// slope is the fill of the last order, is at the base's.
fn ticks_along(base: &Outcome, outcome: &Outcome) -> u64
    requires { IsNotBelowZero (fraction_of base.now.claim.surplus) }
    ensures { result ≡ min (ticks_along base.now outcome.now) MAX_PRICE }
{
    match outcome.fills.as_slice().last() {
        Some(fill) => whole_steps(outcome.claim.surplus, base.claim.surplus, *fill, MAX_PRICE),
        None => 0,
    }
}

/// The price so many ticks worse, and at least one.
fn price_along(side: Side, price: u64, ticks: u64) -> u64
    requires price { price ≤ MAX_PRICE }
    requires ticks { ticks ≤ MAX_PRICE }
    ensures { result ≡ price_along side price ticks }
{
    let ticks = ticks.max(1);
    match side {
        Side::Buy => price.saturating_sub(ticks),
        Side::Sell => MAX_PRICE.min(price + ticks),
    }
}

/// The next price, from one that was probed.
pub(crate) fn next_along(base: &Outcome, side: Side, probed: &Probed) -> u64
    requires base { IsNotBelowZero (fraction_of base.now.claim.surplus) }
    requires price { probed.now.price ≤ MAX_PRICE }
    ensures { result ≡ next_along base.now side probed.now.price probed.now.outcome }
{
    let ticks = ticks_along(base, &probed.outcome);
    price_along(side, probed.price, ticks)
}

/// The next better price for a match.
pub(crate) fn next_better(side: Side, price: u64) -> u64
    requires { price ≤ MAX_PRICE }
    ensures { result ≡ next_better side price }
{
    match side {
        Side::Buy => price + 1,
        Side::Sell => price.saturating_sub(1),
    }
}
