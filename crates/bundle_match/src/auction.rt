// The double auction of two queues.
ghost use Rattle.std.specs.Prelude.{◌≡◌, ◌++◌, ◌<◌, ◌^◌, OnOk};
ghost use Rattle.bundle_match.specs.Auction.{next_trade, fill_first, auction, amount_at, fill_at};

use crate::queues::Offer;
use form::Side;
use std::alloc::AllocError;
use std::collections::VecDeque;

// What the orders at two places trade.
#[derive(Clone, Copy, Debug)]
pub(crate) struct Trade {
    pub buy: usize,
    pub sell: usize,
    pub amount: u64,
}

// The next trade of two queues: the smaller of the two quantities left, while the first buy's price
// is above the first sell's.
fn next_trade(buys: &VecDeque<Offer>, sells: &VecDeque<Offer>) -> Option<Trade>
    ensures { result ≡ next_trade buys.now.items sells.now.items }
{
    let buy = buys.front()?;
    let sell = sells.front()?;
    if sell.price < buy.price {
        Some(Trade {
            buy: buy.place,
            sell: sell.place,
            amount: buy.left.min(sell.left),
        })
    } else {
        None
    }
}

// Fills the first order of a queue by an amount. It leaves the queue when nothing is left of it.
fn fill_first(queue: &mut VecDeque<Offer>, amount: u64)
    ensures { queue.new.items ≡ fill_first amount queue.old.items }
{
    if let Some(first) = queue.front_mut() {
        if first.left == amount {
            queue.pop_front();
        } else {
            first.left = first.left.saturating_sub(amount);
        }
    }
}

// Adds the trades of two queues.
#[tactic(auto, using(crate::proofs::Turns::shorter_with))]
pub(crate) fn auction(
    mut buys: VecDeque<Offer>,
    mut sells: VecDeque<Offer>,
    trades: &mut Vec<Trade>,
) -> Result<(), AllocError>
    ensures { OnOk result (trades.new.items ≡ trades.old.items ++ auction buys.items sells.items) }
{
    while let Some(trade) = next_trade(&buys, &sells) {
        fill_first(&mut buys, trade.amount);
        fill_first(&mut sells, trade.amount);
        trades.push(trade)?;
    }
    Ok(())
}

// What a trade fills of the order on a side at a place.
fn amount_at(trade: &Trade, side: Side, place: usize) -> u64
    ensures { result ≡ amount_at side place trade.now }
{
    let filled = match side {
        Side::Buy => trade.buy,
        Side::Sell => trade.sell,
    };
    if filled == place { trade.amount } else { 0 }
}

// What trades fill of it.
#[tactic(auto, using(std::proofs::lemmas::List::Sums::sum_by_more_le))]
pub(crate) fn fill_at(trades: &[Trade], side: Side, place: usize) -> u64
    requires { fill_at side place trades.now < 2 ^ 64 }
    ensures { result ≡ fill_at side place trades.now }
{
    let mut filled = 0;
    for trade in trades {
        filled += amount_at(trade, side, place);
    }
    filled
}
