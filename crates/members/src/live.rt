// The live orders of a session's accounts in a market.
ghost use Rattle.std.specs.Prelude.{◌≡◌, ◌≤◌, length, IfOk};
ghost use Rattle.form.specs.declared.limits.TheConstants.{MAX_ORDERS};
ghost use Rattle.members.specs.Members.{has_own_live, own_live, own_one};

use crate::owners::Owners;
use crate::quota::MAX_OWN_LIVE;
use exchange_core::{Exchange, Failure};
use form::Order;
use std::alloc::AllocError;

// 1 where the order is of an account of the session.
fn own_one(owners: &Owners, session: u32, order: &Order) -> u32
    ensures own { result ≡ own_one owners.now session order.now }
    ensures small { result ≤ 1 }
{
    if owners.owns(session, order.account) {
        1
    } else {
        0
    }
}

// How many of these are of accounts of the session.
fn own_live(owners: &Owners, session: u32, orders: &[Order]) -> u32
    requires { length orders.now ≤ MAX_ORDERS }
    ensures { result ≡ own_live owners.now session orders.now }
{
    let mut count: u32 = 0;
    for order in orders {
        count += own_one(owners, session, order);
    }
    count
}

// Whether a session's accounts have as many live orders in a market as they may, by the orders.
fn counts_many(
    owners: &Owners,
    exchange: &Exchange,
    session: u32,
    market: u32,
) -> Result<bool, AllocError>
    ensures { IfOk result (λ many. many
        ≡ has_own_live owners.now exchange.now.book session market) }
{
    match exchange.orders(market) {
        Ok(batch) => {
            let count = own_live(owners, session, batch.orders.as_slice());
            Ok(count >= MAX_OWN_LIVE)
        }
        Err(Failure::Refused(_)) => Ok(false),
        Err(Failure::Memory) => Err(AllocError),
    }
}

// Whether a session's accounts have as many live orders in a market as they may. Where the market
// has fewer, no order is looked at.
pub(crate) fn has_own_live(
    owners: &Owners,
    exchange: &Exchange,
    session: u32,
    market: u32,
) -> Result<bool, AllocError>
    ensures { IfOk result (λ many. many
        ≡ has_own_live owners.now exchange.now.book session market) }
{
    let Some(info) = exchange.info(market) else {
        return Ok(false);
    };
    if info.live < MAX_OWN_LIVE {
        return Ok(false);
    }
    counts_many(owners, exchange, session, market)
}
