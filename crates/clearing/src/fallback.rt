//! The match of each bundle by itself, for a batch whose run stops.
ghost use Rattle.std.specs.Prelude.{◌≡◌, ◌≤◌, ◌*◌, IfOk, List, length, unsigned_abs};
ghost use Rattle.std.specs.List.{All, zip};
ghost use Rattle.exact_num.specs.Fraction.{whole};
ghost use Rattle.frac.specs.Range.{limit as largest};
ghost use Rattle.frac.specs.ValueOf.{value_of};
ghost use Rattle.clearing_model.specs.Clearing.{premium};
ghost use Rattle.form.specs.Limits.{IsWithinLimits};
ghost use Rattle.form.specs.declared.limits.TheConstants.{MAX_ORDERS, MAX_PRICE, MAX_QUANTITY};
ghost use Rattle.clearing.specs.Outcome.{fallback, whole_fills};
ghost use Rattle.clearing.specs.Premiums.{amount_on, paid_total};
ghost use Rattle.clearing.specs.Rooms.{IsMatchOf};

use bundle_match::match_each;
use cert_check::{Claim, Fills, Mark, Outcome};
use form::{Batch, Order, Side};
use frac::{Frac128, whole};
use lists::take_list;
use std::alloc::{AllocError, Global};

/// What a fill pays, in ticks, where its order is on the side, and else 0.
fn paid_on(side: Side, order: &Order, fill: u64) -> u64
    requires price { order.now.price ≤ MAX_PRICE }
    requires fill { fill ≤ MAX_QUANTITY }
    ensures amount { result ≡ order.now.price * amount_on side (order.now, fill) }
    ensures small { result ≤ 1000000000000000000 }
{
    if order.side == side {
        fill * order.price
    } else {
        0
    }
}

/// What the fills on a side pay, in ticks.
fn total_on(side: Side, orders: &[Order], fills: &[u64]) -> u128
    requires few { length orders.now ≤ MAX_ORDERS }
    requires size { length fills.now ≡ length orders.now }
    requires prices { All (λ order. order.price ≤ MAX_PRICE) orders.now }
    requires fills { All (λ fill. fill ≤ MAX_QUANTITY) fills.now }
    ensures total { result ≡ paid_total side (zip orders.now fills.now) }
    ensures small { result ≤ 256 * 1000000000000000000 }
{
    let mut total = 0u128;
    for (place, order) in orders.iter().enumerate() {
        total += u128::from(paid_on(side, order, fills[place]));
    }
    total
}

/// What buyers pay less what sellers get, in ticks.
fn premium(orders: &[Order], fills: &[u64]) -> i128
    requires few { length orders.now ≤ MAX_ORDERS }
    requires size { length fills.now ≡ length orders.now }
    requires prices { All (λ order. order.price ≤ MAX_PRICE) orders.now }
    requires fills { All (λ fill. fill ≤ MAX_QUANTITY) fills.now }
    ensures premium { result ≡ premium (zip orders.now fills.now) }
    ensures small { unsigned_abs result ≤ 256 * 1000000000000000000 }
{
    let paid = total_on(Side::Buy, orders, fills);
    let earned = total_on(Side::Sell, orders, fills);
    paid as i128 - earned as i128
}

/// A whole number as a fraction.
fn value(v: i128) -> Frac128
    requires { unsigned_abs v ≤ largest }
    ensures { result ≡ value_of (whole v) }
{
    whole(v)
}

/// The amounts as fractions.
fn whole_fills(alloc: Global, amounts: &[u64]) -> Result<Vec<Frac128>, AllocError>
    ensures { IfOk result (λ fills. fills.items ≡ whole_fills amounts.now) }
{
    let mut fills = Vec::new(alloc);
    for amount in amounts {
        fills.push(value(i128::from(*amount)))?;
    }
    Ok(fills)
}

/// The match of each bundle by itself, which is kept for a run that stops: its fills, and what
/// buyers pay less what sellers get. Only `new` takes memory.
#[derive(Drop)]
pub(crate) struct Matched {
    fills: Vec<Frac128>,
    surplus: Frac128,
}

impl Matched {
    /// The match of a batch. The error is want of memory.
    pub(crate) fn new(alloc: Global, batch: &Batch) -> Result<Matched, AllocError>
        requires { IsWithinLimits batch.now }
        ensures { IfOk result (IsMatchOf batch.now.orders) }
    {
        let amounts = match_each(alloc, batch)?;
        let surplus = premium(batch.orders.as_slice(), amounts.as_slice());
        Ok(Matched {
            fills: whole_fills(alloc, amounts.as_slice())?,
            surplus: value(surplus),
        })
    }

    /// Takes the match out of its place. It takes no memory.
    pub(crate) fn take(&mut self) -> Matched
        ensures { result ≡ self.old }
    {
        Matched {
            fills: take_list(&mut self.fills),
            surplus: self.surplus,
        }
    }
}

/// The match, with the mark of a run that stopped after so many units. Its liability is 0. It takes
/// no memory.
pub(crate) fn fallback(matched: Matched, mark: Mark, units: u32) -> Outcome
    ensures { (orders : List Order) → IsMatchOf orders matched
        → result ≡ fallback orders mark units }
{
    let Matched { fills, surplus } = matched;
    Outcome {
        fills: Fills::from_vec(fills),
        claim: Claim {
            liability: value(0),
            surplus,
        },
        mark,
        units,
    }
}
