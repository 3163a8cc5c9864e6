//! What an account has in its markets.
ghost use Rattle.std.specs.Prelude.{◌≡◌, ◌≤◌, ◌^◌, ◌++◌, ◌∷◌, [], IfOk, IfSome, OnOk, filter, length};
ghost use Rattle.std.specs.List.{All};
ghost use Rattle.exchange_core.specs.Kept.{IsKept};
ghost use Rattle.account_need.specs.Account.{with_live};
ghost use Rattle.account_need.specs.Given.{IsMarket, numbered, numbered_of, portfolio_of};
ghost use Rattle.secured_accounts.specs.Secured.{IsAccepted, account_of, has_some, numbered_in, with_placed};

use account_need::Market;
use exchange_core::{Exchange, NewOrder};
use form::Order;
use std::alloc::{AllocError, Global};

// 2^24. An account never has so many positions, since each is of another accepted order, and an
// exchange accepts 1,000,000; but no invariant says so.
const MAX_POSITIONS: usize = 16_777_216;

// What it has in a market.
fn part_in(exchange: &Exchange, account: u32, number: u32) -> Result<Market, AllocError>
    ensures part { IfOk result (λ market. numbered_of market
        ≡ numbered_in exchange.now account number) }
    ensures few { IfOk result (λ market. length market.positions.items ≤ 2 ^ 24) }
    ensures kept { IsKept exchange.now }
{
    let positions = exchange.positions_of(account, number)?;
    if positions.len() > MAX_POSITIONS {
        return Err(AllocError);
    }
    let live = exchange.orders_of(account, number)?;
    Ok(Market {
        number,
        underlyings: exchange.underlyings_in(number),
        positions,
        live,
    })
}

// The market with an order more, which goes last.
fn with_live(market: Market, order: &Order) -> Result<Market, AllocError>
    ensures { IfOk result (λ more. numbered_of more
        ≡ (market.number, with_live (portfolio_of market) order.now)) }
{
    let mut more = market;
    more.live.push(*order)?;
    Ok(more)
}

// What it has in a market once an order is placed, if one is.
fn part_once(
    exchange: &Exchange,
    account: u32,
    number: u32,
    placed: &Option<NewOrder>,
) -> Result<Market, AllocError>
    requires { IfSome placed.now (IsAccepted exchange.now account) }
    ensures part { IfOk result (λ market. numbered_of market
        ≡ numbered_in (with_placed exchange.now placed.now) account number) }
    ensures within { IfOk result IsMarket }
{
    let market = part_in(exchange, account, number)?;
    let Some(order) = placed else {
        return Ok(market);
    };
    if order.market == number {
        with_live(market, &exchange.as_live(order))
    } else {
        Ok(market)
    }
}

// Whether it has positions or live orders there.
fn has_some(market: &Market) -> bool
    ensures { result ≡ has_some (numbered_of market.now) }
{
    !(market.positions.is_empty() && market.live.is_empty())
}

// Puts a market last, where there is something in it.
fn add_part(markets: &mut Vec<Market>, market: Market) -> Result<(), AllocError>
    ensures markets { OnOk result (numbered markets.new.items
        ≡ numbered markets.old.items ++ filter has_some (numbered_of market ∷ [])) }
    ensures within { All IsMarket markets.old.items → IsMarket market
        → OnOk result (All IsMarket markets.new.items) }
{
    if has_some(&market) {
        markets.push(market)?;
    }
    Ok(())
}

/// The markets in which an account has positions or live orders once an order of it is placed, if
/// one is, by rising number. The exchange accepts the order. The only error is want of memory.
pub(crate) fn account_of(
    alloc: Global,
    exchange: &Exchange,
    account: u32,
    placed: &Option<NewOrder>,
) -> Result<Vec<Market>, AllocError>
    requires { IfSome placed.now (IsAccepted exchange.now account) }
    ensures markets { IfOk result (λ markets. numbered markets.items
        ≡ account_of (with_placed exchange.now placed.now) account) }
    ensures within { IfOk result (λ markets. All IsMarket markets.items) }
{
    let numbers = exchange.markets()?;
    let mut markets = Vec::new(alloc);
    for number in &numbers {
        let market = part_once(exchange, account, *number, placed)?;
        add_part(&mut markets, market)?;
    }
    Ok(markets)
}
