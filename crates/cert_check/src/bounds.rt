//! The bound of a measure on every surplus.

ghost use Rattle.std.specs.Prelude.{◌≡◌, All, IfOk};
ghost use Rattle.exact_num.specs.Fits.{meaning};
ghost use Rattle.frac.specs.Range.{limit};
ghost use Rattle.frac.specs.Value.{fraction_of};
ghost use Rattle.form.specs.Limits.{HasItsForms};
ghost use Rattle.cert_check.specs.MeasureLaws.{IsAboveCovers, IsBoundOf};
ghost use Rattle.cert_check.specs.Points.{FitsStates, IsOnStates, points_of};
ghost use Rattle.cert_check.specs.MeasureSums.{add_gain, bound_of, gain_at};

use crate::measures::Measure;
use crate::prices::price_of;
use exact_num::{Exact, Wide, plus_product};
use form::{Batch, Order, Side};
use frac::{Frac128, whole};

/// The bound of the measure: the sum over orders of quantity times the positive part of limit less
/// price for a buy, and of price less limit for a sell. An order counts whether it is filled or
/// not. Where the points are a measure of the batch's underlyings, no fills of the batch cover a
/// surplus above it. Each state has as many entries as the forms. `Wide` comes exactly where a step
/// does not fit. Takes no memory. (The dual objective and weak duality: Chvatal, Linear
/// Programming, chapter 5.)
pub fn bound(batch: &Batch, m: &Measure) -> Result<Frac128, Wide>
    requires forms { HasItsForms batch.now }
    requires states { IsOnStates batch.now.underlyings m.now }
    ensures steps { meaning fraction_of result ≡ bound_of limit batch.now.orders (points_of m.now) }
    ensures exact { IfOk result (IsBoundOf batch.now m.now) }
    ensures duality { IfOk result (IsAboveCovers batch.now m.now) }
{
    sum(batch.orders.as_slice(), m)
}

// The sum over these orders.
fn sum(orders: &[Order], m: &Measure) -> Result<Frac128, Wide>
    requires { All (λ order. FitsStates order.bundle m.now.points) orders.now }
    ensures { meaning fraction_of result ≡ bound_of limit orders.now (points_of m.now) }
{
    let mut total = Frac128::zero();
    for order in orders {
        total = add_gain(total, m, order)?;
    }
    Ok(total)
}

// The total and the order's quantity times its gain, where it gains.
#[tactic(auto, unfolding(form::specs::Payoff::bundle_of))]
fn add_gain(total: Frac128, m: &Measure, order: &Order) -> Result<Frac128, Wide>
    requires { FitsStates order.now.bundle m.now.points }
    ensures { meaning fraction_of result
        ≡ add_gain limit (points_of m.now) (fraction_of total) order.now }
{
    let price = price_of(&order.bundle, m)?;
    let gain = gain_at(order.side, whole(order.price.into()), price)?;
    if gain.sign() > 0 {
        plus_product(total, whole(order.quantity.into()), gain)
    } else {
        Ok(total)
    }
}

// How far the limit is above the price for a buy, and below it for a sell.
fn gain_at(side: Side, limit_price: Frac128, price: Frac128) -> Result<Frac128, Wide>
    ensures { meaning fraction_of result
        ≡ gain_at limit side (fraction_of limit_price) (fraction_of price) }
{
    match side {
        Side::Buy => limit_price.sub(price),
        Side::Sell => price.sub(limit_price),
    }
}
