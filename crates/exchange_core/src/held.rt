//! What an account holds.
ghost use Rattle.std.specs.Prelude.{◌≡◌, IfOk};
ghost use Rattle.exchange_core.specs.Held.{market_numbers, orders_of};

use form::Order;
use order_book::Book;
use std::alloc::{AllocError, Global};
use std::collections::BTreeSet;

/// The numbers of a set, in rising order.
pub(crate) fn in_order(alloc: Global, numbers: &BTreeSet<u32>) -> Result<Vec<u32>, AllocError>
    ensures { IfOk result (λ list. list.items ≡ numbers.now.keys) }
{
    numbers.iter().copied().collect(alloc)
}

/// The live orders of an account in a market, in rising number.
pub(crate) fn orders_of(
    alloc: Global,
    book: &Book,
    account: u32,
    market: u32,
) -> Result<Vec<Order>, AllocError>
    ensures { IfOk result (λ orders. orders.items ≡ orders_of account market book.now) }
{
    let live = book.info(market).map_or(0, |found| found.live);
    let mut orders = Vec::new(alloc);
    for place in 0..live {
        let order = book.live_order(market, place).unwrap();
        if order.account == account {
            orders.push(order)?;
        }
    }
    Ok(orders)
}

/// The numbers of all markets, in rising order.
pub(crate) fn market_numbers(alloc: Global, book: &Book) -> Result<Vec<u32>, AllocError>
    ensures { IfOk result (λ numbers. numbers.items ≡ market_numbers book.now) }
{
    let listed = book.numbers()?;
    let mut numbers = BTreeSet::new(alloc);
    for market in &listed {
        numbers.insert(*market)?;
    }
    in_order(alloc, &numbers)
}
