//! The states of a market on one underlying.

ghost use Rattle.std.specs.Prelude.{◌≡◌, ◌≤◌, ◌+◌, All, IfOk, OnOk, length, map, not};
ghost use Rattle.std.specs.List.{filter_map, fold, position};
ghost use Rattle.form.specs.Limits.{HasItsForms};
ghost use Rattle.form.specs.Payoff.{IsOnCount, bundle_legs};
ghost use Rattle.form.specs.States.{vector_of};
ghost use Rattle.line_cover.specs.Breakpoints.{in_rising_price, insert, is_below, line_states};
ghost use Rattle.line_cover.specs.Line.{breakpoint_of_leg, breakpoints_of, legs_of_orders};
ghost use Rattle.line_cover.specs.Prices.{price_vector};

use crate::breakpoint::breakpoint;
use crate::price::{Price, price_state};
use form::{Batch, Bundle, Order, State};
use std::alloc::{AllocError, Global};

/// The states at which a liability has to be enough, so that it is enough at every settlement: the
/// price 0, each price above 0 where the payoff of a leg bends, once and in rising price, and the
/// slope beyond the last. Prices are in lowest terms. There are at most two more than legs. The
/// batch is on one underlying.
pub fn breakpoints(alloc: Global, batch: &Batch) -> Result<Vec<State>, AllocError>
    requires forms { HasItsForms batch.now }
    requires one { batch.now.underlyings ≡ 1 }
    ensures states { IfOk result (λ states.
        map vector_of states.items ≡ line_states batch.now.orders) }
    ensures counts { IfOk result (λ states. All (λ state. state.count ≡ 2) states.items) }
    ensures few { IfOk result (λ states.
        length states.items ≤ length (legs_of_orders batch.now.orders) + 2) }
{
    let mut states = Vec::new(alloc);
    states.push(price_state(1, 0))?;
    for price in &rising_breakpoints(alloc, batch.orders.as_slice())? {
        states.push(price.state())?;
    }
    states.push(price_state(0, 1))?;
    Ok(states)
}

// The prices where the payoffs of the legs bend, each once and in rising order.
fn rising_breakpoints(alloc: Global, orders: &[Order]) -> Result<Vec<Price>, AllocError>
    requires { All (λ o. IsOnCount 2 o.bundle) orders.now }
    ensures { IfOk result (λ prices.
        map price_vector prices.items ≡ in_rising_price (breakpoints_of orders.now)) }
{
    let mut prices = Vec::new(alloc);
    for order in orders {
        insert_breakpoints(&mut prices, &order.bundle)?;
    }
    Ok(prices)
}

// Puts the breakpoints of the legs among rising prices.
fn insert_breakpoints(prices: &mut Vec<Price>, bundle: &Bundle) -> Result<(), AllocError>
    requires { IsOnCount 2 bundle.now }
    ensures { OnOk result (map price_vector prices.new.items
        ≡ fold insert (map price_vector prices.old.items)
        (filter_map breakpoint_of_leg (bundle_legs bundle.now))) }
{
    for leg in bundle.as_slice() {
        if let Some(price) = breakpoint(&leg.form) {
            insert(prices, price)?;
        }
    }
    Ok(())
}

// Puts a price into its place among rising ones, unless it is there.
fn insert(prices: &mut Vec<Price>, price: Price) -> Result<(), AllocError>
    ensures { OnOk result (map price_vector prices.new.items
        ≡ insert (map price_vector prices.old.items) (price_vector price)) }
{
    let place = first_not_below(prices, &price).unwrap_or(prices.len());
    if place == prices.len() || price.is_below(&prices[place]) {
        prices.insert(place, price)?;
    }
    Ok(())
}

// The place of the first price that is not below this one.
fn first_not_below(prices: &[Price], price: &Price) -> Option<usize>
    ensures { let z = price_vector price.now in
        result ≡ position (λ other. not (is_below (price_vector other) z)) prices.now }
{
    prices.iter().position(|other| !other.is_below(price))
}
