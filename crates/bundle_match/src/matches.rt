// The match of each bundle by itself.
ghost use Rattle.std.specs.Prelude.{◌≡◌, ◌≤◌, ◌≤ℤ◌, length, pos, IfOk};
ghost use Rattle.std.specs.List.{zip};
ghost use Rattle.clearing_model.specs.Balance.{AreBalanced};
ghost use Rattle.clearing_model.specs.Clearing.{AreFills, premium};
ghost use Rattle.form.specs.Payoff.{bundle_of};
ghost use Rattle.bundle_match.specs.Laws.{AreFilledByAuction, IsBestBalanced, OwesNothing};
ghost use Rattle.bundle_match.specs.Match.{match_by_bundle};
ghost use Rattle.bundle_match.specs.Trades.{is_seen, AreTradesOf};

use crate::auction::{Trade, auction, fill_at};
use crate::queues::{is_for_same_bundle, queue};
use form::{Batch, Order, Side};
use std::alloc::{AllocError, Global};

// Whether an order before a place is for the bundle of an order.
fn is_seen(orders: &[Order], place: usize, order: &Order) -> bool
    requires { place ≤ length orders.now }
    ensures { result ≡ is_seen orders.now place (bundle_of order.now) }
{
    orders[..place]
        .iter()
        .any(|earlier| is_for_same_bundle(earlier, order))
}

// The trades of all bundles, each auctioned where its first order stands.
fn trades(alloc: Global, orders: &[Order]) -> Result<Vec<Trade>, AllocError>
    ensures { IfOk result (λ trades. AreTradesOf orders.now trades.items) }
{
    let mut trades = Vec::new(alloc);
    for (place, order) in orders.iter().enumerate() {
        if !is_seen(orders, place, order) {
            let buys = queue(alloc, orders, order, Side::Buy)?;
            let sells = queue(alloc, orders, order, Side::Sell)?;
            auction(buys, sells, &mut trades)?;
        }
    }
    Ok(trades)
}

// What the trades fill of each order.
fn fills(alloc: Global, orders: &[Order], trades: &[Trade]) -> Result<Vec<u64>, AllocError>
    requires { AreTradesOf orders.now trades.now }
    ensures { IfOk result (λ fills. fills.items ≡ match_by_bundle orders.now) }
{
    let mut fills = Vec::new(alloc);
    for (place, order) in orders.iter().enumerate() {
        // Read for the proof: the fill is at most this u32, so its sum fits.
        let _quantity = order.quantity;
        fills.push(fill_at(trades, order.side, place))?;
    }
    Ok(fills)
}

/// Matches the orders of each bundle by themselves, as a double auction. The buys stand in a queue
/// by falling limit price, the sells by rising limit price; at one price the order with the smaller
/// id stands first. While the first buy's price is above the first sell's, the smaller of the two
/// quantities left is filled in both.
///
/// Answers the whole fills in the order of the batch. Of each bundle as much is bought as sold, so
/// the fills owe nothing at any settlement. No other fills that balance each bundle by itself,
/// fractions included, have a greater premium (in ticks, what buyers pay less what sellers get).
/// The only error is want of memory.
pub fn match_each(alloc: Global, batch: &Batch) -> Result<Vec<u64>, AllocError>
    ensures fills { IfOk result (λ fills. fills.items ≡ match_by_bundle batch.now.orders) }
    ensures auction { IfOk result (λ fills. AreFilledByAuction batch.now.orders fills.items) }
    ensures within { IfOk result (λ fills. AreFills batch.now.orders fills.items 1) }
    ensures balanced { IfOk result (λ fills. AreBalanced (zip batch.now.orders fills.items)) }
    ensures owes_nothing { IfOk result (λ fills. OwesNothing (zip batch.now.orders fills.items)) }
    ensures earns { IfOk result (λ fills. pos 0 ≤ℤ premium (zip batch.now.orders fills.items)) }
    ensures best { IfOk result (λ fills. IsBestBalanced batch.now.orders fills.items) }
{
    let orders = batch.orders.as_slice();
    let trades = trades(alloc, orders)?;
    fills(alloc, orders, trades.as_slice())
}
