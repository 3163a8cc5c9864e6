//! What live orders may lose at a price, and what is reserved for them.
ghost use Rattle.std.specs.Prelude.{◌≡◌, ◌≤◌, ◌*◌, length, true, unsigned_abs};
ghost use Rattle.std.specs.List.{All};
ghost use Rattle.form.specs.Limits.{IsOrderWithin};
ghost use Rattle.form.specs.Payoff.{bundle_legs, bundle_payoff};
ghost use Rattle.form.specs.declared.limits.TheConstants.{MAX_ORDERS};
ghost use Rattle.account_need.specs.Exposure.{loss_at, losses_at, reserve_for, reserve_of};
ghost use Rattle.account_need.specs.Prices.{IsLineBundle, IsLineOrder, price_vector};
ghost use Rattle.account_need.specs.Several.{is_single_sell};

use crate::kinds::is_single_sell;
use crate::options::pays;
use crate::price::Price;
use form::{Bundle, Order, Side};

// What one bundle pays, times t.
fn bundle_pays(bundle: &Bundle, at: &Price) -> i64
    requires { IsLineBundle bundle.now }
    ensures pays { result ≡ bundle_payoff (bundle_legs bundle.now) (price_vector at.now) }
    ensures small { unsigned_abs result ≤ 8000000000000000 }
{
    let mut total: i64 = 0;
    for leg in bundle.as_slice() {
        total += i64::from(leg.count) * pays(&leg.form, at) as i64;
    }
    total
}

// What one bundle of the order may lose, where that is one option that is sold once.
fn single_loss(order: &Order, at: &Price) -> u64
    requires order { IsLineOrder order.now }
    requires single { is_single_sell order.now ≡ true }
    ensures loss { result ≡ loss_at (price_vector at.now) order.now }
    ensures small { result ≤ 8000000000000000 }
{
    pays(&order.bundle.as_slice()[0].form, at).saturating_sub(order.price * at.t)
}

// And of any bundle.
fn bundle_loss(order: &Order, at: &Price) -> u64
    requires { IsLineOrder order.now }
    ensures loss { result ≡ loss_at (price_vector at.now) order.now }
    ensures small { result ≤ 8000000000000000 }
{
    let paid = bundle_pays(&order.bundle, at);
    let cost = match order.side {
        Side::Buy => -paid,
        Side::Sell => paid - (order.price * at.t) as i64,
    };
    if cost > 0 { cost as u64 } else { 0 }
}

fn loss(order: &Order, at: &Price) -> u64
    requires { IsLineOrder order.now }
    ensures loss { result ≡ loss_at (price_vector at.now) order.now }
    ensures small { result ≤ 8000000000000000 }
{
    if is_single_sell(order) {
        single_loss(order, at)
    } else {
        bundle_loss(order, at)
    }
}

// What the order may lose, whole.
fn loss_of_all(order: &Order, at: &Price) -> u128
    requires { IsLineOrder order.now }
    ensures loss { result ≡ order.now.quantity * loss_at (price_vector at.now) order.now }
    ensures small { result ≤ 8000000000000000000000 }
{
    u128::from(order.quantity) * u128::from(loss(order, at))
}

// What all live orders may lose.
pub(crate) fn losses(live: &[Order], at: &Price) -> u128
    requires within { All IsLineOrder live.now }
    requires few { length live.now ≤ MAX_ORDERS }
    ensures losses { result ≡ losses_at (price_vector at.now) live.now }
    ensures small { result ≤ length live.now * 8000000000000000000000 }
{
    let mut total: u128 = 0;
    for order in live {
        total += loss_of_all(order, at);
    }
    total
}

// What is reserved for an order: for a buy its quantity times its price.
fn reserve_for(order: &Order) -> u128
    requires { IsOrderWithin order.now }
    ensures reserve { result ≡ reserve_for order.now }
    ensures small { result ≤ 1000000000000000000 }
{
    match order.side {
        Side::Buy => u128::from(order.quantity) * u128::from(order.price),
        Side::Sell => 0,
    }
}

// What is reserved for all of them.
pub(crate) fn reserve(live: &[Order]) -> u128
    requires within { All IsOrderWithin live.now }
    requires few { length live.now ≤ MAX_ORDERS }
    ensures reserve { result ≡ reserve_of live.now }
    ensures small { result ≤ length live.now * 1000000000000000000 }
{
    let mut total: u128 = 0;
    for order in live {
        total += reserve_for(order);
    }
    total
}
