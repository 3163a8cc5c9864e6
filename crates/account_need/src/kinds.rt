//! How a live order counts in a market on several underlyings.
ghost use Rattle.std.specs.Prelude.{◌≡◌, int_lt, pos};
ghost use Rattle.std.specs.List.{list_all};
ghost use Rattle.form.specs.Payoff.{bundle_legs};
ghost use Rattle.account_need.specs.Several.{counts_once, has_plain_legs, is_by_itself, is_plain_buy, is_single_sell};

use form::{Bundle, Leg, Order, Side};

fn counts_once(bundle: &Bundle) -> bool
    ensures { result ≡ counts_once (bundle_legs bundle.now) }
{
    let legs = bundle.as_slice();
    legs.len() == 1 && legs[0].count == 1
}

/// Whether the order sells one option, once.
pub(crate) fn is_single_sell(order: &Order) -> bool
    ensures { result ≡ is_single_sell order.now }
{
    match order.side {
        Side::Buy => false,
        Side::Sell => counts_once(&order.bundle),
    }
}

fn are_plain(legs: &[Leg]) -> bool
    ensures { result ≡ list_all (λ leg. int_lt (pos 0) leg.count) legs.now }
{
    legs.iter().all(|leg| leg.count > 0)
}

fn has_plain_legs(bundle: &Bundle) -> bool
    ensures { result ≡ has_plain_legs (bundle_legs bundle.now) }
{
    are_plain(bundle.as_slice())
}

fn is_plain_buy(order: &Order) -> bool
    ensures { result ≡ is_plain_buy order.now }
{
    match order.side {
        Side::Buy => has_plain_legs(&order.bundle),
        Side::Sell => false,
    }
}

/// Whether the order has a run of its own.
pub(crate) fn is_by_itself(order: &Order) -> bool
    ensures { result ≡ is_by_itself order.now }
{
    let (single, plain) = (is_single_sell(order), is_plain_buy(order));
    !single && !plain
}
