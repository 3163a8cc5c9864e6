//! One probe: what clears where the batch has one order more. All probes of a quote are cleared in
//! one room.
ghost use Rattle.std.specs.Prelude.{◌≡◌, ◌≤◌, IfOk, length};
ghost use Rattle.form.specs.Limits.{IsWithinLimits};
ghost use Rattle.form.specs.declared.limits.TheConstants.{MAX_BUDGET, MAX_ORDERS};
ghost use Rattle.clearing.specs.Outcome.{outcome_of};
ghost use Rattle.clearing.specs.Rooms.{IsClearRoom};
ghost use Rattle.option_quotes.specs.Ends.{IsProbing};
ghost use Rattle.option_quotes.specs.Probes.{best_price, further, is_optimal, is_raised, probe_outcome, with_order, worst_price};

use cert_check::{Mark, Outcome};
use clearing::ClearRoom;
use form::{Batch, Bundle, Form, MAX_PRICE, Order, Orders, Side};
use std::alloc::{AllocError, Global};

// An id above those of the batch, and an account of no trader.
const ID: u64 = 1_000_001;

const ACCOUNT: u32 = 999_999_999;

/// What the probes of an order clear, each at a price of its own: the batch with the order at its
/// end, with at most `limit` units of work.
#[derive(Drop)]
pub(crate) struct Probing<'a> {
    pub(crate) batch: &'a Batch,
    pub(crate) order: Order,
    pub(crate) limit: u32,
}

/// The further order, at price 0.
pub(crate) fn further(form: &Form, side: Side) -> Order
    ensures { result ≡ further form.now side }
{
    Order {
        id: ID,
        account: ACCOUNT,
        side,
        bundle: Bundle::one(*form),
        price: 0,
        quantity: 1,
    }
}

/// The batch with the order at its end.
fn with_order(alloc: Global, batch: &Batch, order: Order) -> Result<Batch, AllocError>
    requires { length batch.now.orders ≤ MAX_ORDERS }
    ensures { IfOk result (λ extended. extended ≡ with_order batch.now order) }
{
    let orders = batch.orders.as_slice();
    let mut extended = Vec::with_capacity(alloc, orders.len() + 1)?;
    extended.extend_from_slice(orders)?;
    extended.push(order)?;
    Ok(Batch {
        underlyings: batch.underlyings,
        orders: Orders::from_vec(extended),
    })
}

/// The outcome of the batch, cleared in the room: its tables stay, and only the lists of this clear
/// are taken before its first step.
pub(crate) fn outcome_in(
    alloc: Global,
    batch: &Batch,
    limit: u32,
    room: &mut ClearRoom,
) -> Result<Outcome, AllocError>
    requires within { IsWithinLimits batch.now }
    requires limit { (1 ≤ limit) × (limit ≤ MAX_BUDGET) }
    ensures { IfOk result (λ outcome. outcome ≡ outcome_of batch.now limit) }
{
    room.renew(alloc, batch, limit)?;
    Ok(room.clear(batch, limit))
}

impl Probing<'_> {
    /// A room for its probes.
    pub(crate) fn room(&self, alloc: Global) -> Result<ClearRoom, AllocError>
        requires { IsProbing self.now }
        ensures { let p = self.now in
            IfOk result (IsClearRoom (with_order p.batch.now p.order) p.limit) }
    {
        let extended = with_order(alloc, self.batch, self.order)?;
        ClearRoom::new(alloc, &extended, self.limit)
    }

    /// The outcome of the batch with the order at the price.
    pub(crate) fn probe(
        &self,
        alloc: Global,
        price: u64,
        room: &mut ClearRoom,
    ) -> Result<Outcome, AllocError>
        requires probing { IsProbing self.now }
        requires price { price ≤ MAX_PRICE }
        ensures { let p = self.now in
            IfOk result (λ outcome. outcome ≡ probe_outcome p.batch.now p.order p.limit price) }
    {
        let order = Order {
            price,
            ..self.order
        };
        let extended = with_order(alloc, self.batch, order)?;
        outcome_in(alloc, &extended, self.limit, room)
    }
}

/// Whether the outcome is marked optimal.
pub(crate) fn is_optimal(outcome: &Outcome) -> bool
    ensures { result ≡ is_optimal outcome.now }
{
    match outcome.mark {
        Mark::Optimal { .. } => true,
        Mark::Wide(_) | Mark::Budget => false,
    }
}

/// Whether the outcome's surplus is above the base's.
pub(crate) fn is_raised(base: &Outcome, outcome: &Outcome) -> bool
    ensures { result ≡ is_raised base.now outcome.now }
{
    base.claim.surplus < outcome.claim.surplus
}

/// The best price for a match.
pub(crate) fn best_price(side: Side) -> u64
    ensures { result ≡ best_price side }
{
    match side {
        Side::Buy => MAX_PRICE,
        Side::Sell => 0,
    }
}

/// The worst price for a match.
pub(crate) fn worst_price(side: Side) -> u64
    ensures { result ≡ worst_price side }
{
    match side {
        Side::Buy => 0,
        Side::Sell => MAX_PRICE,
    }
}
