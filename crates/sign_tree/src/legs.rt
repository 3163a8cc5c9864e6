//! The legs of a batch, order by order and leg by leg.

ghost use Rattle.std.specs.Prelude.{◌≡◌, ◌≤◌, ◌∷◌, [], length, MatchOption, option_map, slice_get};
ghost use Rattle.exact_num.specs.Fits.{meaning};
ghost use Rattle.frac.specs.Range.{limit};
ghost use Rattle.frac.specs.Value.{fraction_of};
ghost use Rattle.form.specs.declared.limits.TheConstants.{MAX_ORDERS};
ghost use Rattle.form.specs.Payoff.{leg_of};
ghost use Rattle.clearing_model.specs.Legs.{exposure_of};
ghost use Rattle.sign_tree.specs.Legs.{fraction_leg, leg_count, leg_fill};
ghost use Rattle.sign_tree.specs.declared.closing.TheConstants.{MAX_SIGNS};
ghost use Rattle.sign_tree.specs.Left.{IsAtLeg, batch_legs, exposure_as, leg_as, legs_left};

use exact_num::{Exact, Wide};
use form::{Form, Leg, Order, Side};
use frac::{Frac128, whole};

/// Whether the market owes what a leg's option pays, or is owed it.
#[derive(Clone, Copy)]
pub enum Exposure {
    Long,
    Short,
}

/// A leg of a batch: its exposure, the fill of its order, the size of its count, and its option.
#[derive(Clone, Copy)]
pub struct BatchLeg<'a, N> {
    pub exposure: Exposure,
    pub fill: N,
    pub size: u16,
    pub form: &'a Form,
}

/// The legs that are still to come: those of the orders, of the first one from the leg `next` on.
#[derive(Clone, Copy)]
pub struct LegsLeft<'a, N> {
    pub orders: &'a [Order],
    pub fills: &'a [N],
    pub next: usize,
}

/// Long where a buy counts its leg above 0, or a sell below.
fn exposure_of(side: Side, count: i16) -> Exposure
    ensures { exposure_as result ≡ exposure_of side count }
{
    match side {
        Side::Buy if count > 0 => Exposure::Long,
        Side::Sell if count < 0 => Exposure::Long,
        _ => Exposure::Short,
    }
}

/// A leg of the order, which is filled so far.
fn leg_of<'a, N: Exact>(order: &Order, fill: N, leg: &'a Leg) -> BatchLeg<'a, N>
    ensures { leg_as N.fraction result
        ≡ fraction_leg order.now.side (N.fraction fill) (leg_of leg.now) }
{
    BatchLeg {
        exposure: exposure_of(order.side, leg.count),
        fill,
        size: leg.count.unsigned_abs(),
        form: &leg.form,
    }
}

/// The fill of the leg: that of its order times the size of its count.
pub fn leg_fill(leg: BatchLeg<Frac128>) -> Result<Frac128, Wide>
    ensures { meaning fraction_of result ≡ leg_fill limit (leg_as fraction_of leg.entry) }
{
    if leg.size == 1 {
        return Ok(leg.fill);
    }
    leg.fill.mul(whole(leg.size.into()))
}

/// The first leg, where there is one, and those after it. Takes no memory.
pub fn first_leg<'a, N: Exact>(left: LegsLeft<'a, N>) -> Option<(BatchLeg<'a, N>, LegsLeft<'a, N>)>
    requires { IsAtLeg left }
    ensures { MatchOption result (legs_left N.fraction left.entry ≡ [])
        (λ p. (legs_left N.fraction left.entry
        ≡ leg_as N.fraction p.0 ∷ legs_left N.fraction p.1) × IsAtLeg p.1) }
{
    let (order, orders) = left.orders.split_first()?;
    let (fill, fills) = left.fills.split_first()?;
    let legs = order.bundle.as_slice();
    let leg = leg_of(order, *fill, &legs[left.next]);
    let next = left.next + 1;
    if next < legs.len() {
        return Some((leg, LegsLeft { next, ..left }));
    }
    let rest = LegsLeft {
        orders,
        fills,
        next: 0,
    };
    Some((leg, rest))
}

/// The leg at the index, where there is one. Takes no memory.
pub fn leg_at<'a, N: Exact>(
    orders: &'a [Order],
    fills: &[N],
    index: usize,
) -> Option<BatchLeg<'a, N>>
    requires { length fills.now ≡ length orders.now }
    ensures { option_map (leg_as N.fraction) result
        ≡ slice_get (batch_legs N.fraction orders.now fills.now) index }
{
    let mut i = index;
    for k in 0..orders.len() {
        let order = &orders[k];
        let fill = fills[k];
        let legs = order.bundle.as_slice();
        if i < legs.len() {
            return Some(leg_of(order, fill, &legs[i]));
        }
        i -= legs.len();
    }
    None
}

/// How many legs the orders of a batch have. Takes no memory.
pub fn leg_count(orders: &[Order]) -> usize
    requires { length orders.now ≤ MAX_ORDERS }
    ensures count { result ≡ leg_count orders.now }
    ensures few { result ≤ MAX_SIGNS }
{
    let mut count = 0;
    for order in orders {
        count += usize::from(order.bundle.size);
    }
    count
}
