//! The shape of a batch and its outcome.

ghost use Rattle.std.specs.Prelude.{◌≡◌, ◌+◌, length};
ghost use Rattle.frac.specs.Value.{fraction_of};
ghost use Rattle.cert_check.specs.Shape.{are_fills, certificate_fits, cover_fits, forms_have, has_fills, has_shape, is_fill, mark_fits, states_have};

use crate::measures::{Measure, Weighted};
use crate::outcome::{Cover, Mark, Outcome};
use exact_num::Exact;
use form::{Batch, Order};
use frac::{Frac128, whole};

// Whether there are as many fills as orders, and forms, states and cover are those of the batch's
// underlyings.
pub(crate) fn has_shape(batch: &Batch, outcome: &Outcome) -> bool
    ensures { result ≡ has_shape batch.now outcome.now }
{
    has_fills(batch, outcome.fills.as_slice()) && mark_fits(batch.underlyings, &outcome.mark)
}

/// Whether there are as many fills as orders, and the forms are those of the batch's underlyings.
/// Takes no memory.
pub fn has_fills(batch: &Batch, fills: &[Frac128]) -> bool
    ensures { result ≡ has_fills batch.now fills.now }
{
    fills.len() == batch.orders.as_slice().len()
        && are_on(batch.underlyings, batch.orders.as_slice())
}

// Whether each leg of each order is on so many underlyings.
fn are_on(underlyings: u8, orders: &[Order]) -> bool
    ensures { result ≡ forms_have (underlyings + 1) orders.now }
{
    orders.iter().all(|order| order.bundle.is_on(underlyings))
}

/// Whether each state has so many entries. Takes no memory.
pub fn states_have(entries: u16, points: &[Weighted]) -> bool
    ensures { result ≡ states_have entries points.now }
{
    points
        .iter()
        .all(|point| u16::from(point.state.count) == entries)
}

// Whether a certificate of the mark is one of so many underlyings.
fn mark_fits(underlyings: u8, mark: &Mark) -> bool
    ensures { result ≡ mark_fits underlyings mark.now }
{
    match mark {
        Mark::Optimal { cover, measure } => certificate_fits(underlyings, cover, measure),
        Mark::Wide(_) | Mark::Budget => true,
    }
}

// Whether the cover and the states are those of so many underlyings.
fn certificate_fits(underlyings: u8, cover: &Cover, measure: &Measure) -> bool
    ensures { result ≡ certificate_fits underlyings cover.now measure.now }
{
    cover_fits(underlyings, cover)
        && states_have(u16::from(underlyings) + 1, measure.points.as_slice())
}

/// Whether a line is the cover of one underlying, and a tree of several. Takes no memory.
pub fn cover_fits(underlyings: u8, cover: &Cover) -> bool
    ensures { result ≡ cover_fits underlyings cover.now }
{
    match cover {
        Cover::Line => underlyings == 1,
        Cover::Tree(_) => underlyings > 1,
    }
}

/// Whether each fill is from 0 to its order's quantity. There are as many fills as orders. Takes no
/// memory.
pub fn are_fills(orders: &[Order], fills: &[Frac128]) -> bool
    requires { length fills.now ≡ length orders.now }
    ensures { result ≡ are_fills orders.now fills.now }
{
    for i in 0..orders.len() {
        let order = &orders[i];
        if !is_fill(order, fills[i]) {
            return false;
        }
    }
    true
}

// Whether the fill is from 0 to the order's quantity.
fn is_fill(order: &Order, fill: Frac128) -> bool
    ensures { result ≡ is_fill order.now (fraction_of fill) }
{
    fill.sign() >= 0 && fill <= whole(order.quantity.into())
}
