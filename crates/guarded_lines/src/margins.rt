// The margin of an account in a market.
ghost use Rattle.std.specs.Prelude.{◌≡◌, ◌+◌, IfOk};
ghost use Rattle.std.specs.List.{All};
ghost use Rattle.form.specs.Payoff.{IsOnCount};
ghost use Rattle.lists.specs.Refusals.{first_of};
ghost use Rattle.settlement.specs.Positions.{IsHeldPosition};
ghost use Rattle.exchange_core.specs.Held.{positions_of, underlyings_in};
ghost use Rattle.guarded_lines.specs.Margins.{IsMarginIn, market_refusals, margin_reply, told_by};

use command_text::MarginRequest;
use exchange_core::{Exchange, Refusal};
use form::MAX_ORDERS;
use order_book::MarketInfo;
use portfolio_margin::{LeastMargin, margin};
use proposal_text::{ProposalReply, ServedReply, ToldMargin};
use settlement::Position;
use std::alloc::{AllocError, Global};

// The positions that an account has in a market.
fn positions_in(exchange: &Exchange, account: u32, market: u32) -> Result<Vec<Position>, AllocError>
    ensures positions { IfOk result (λ positions.
        positions.items ≡ positions_of account market exchange.now.positions) }
    ensures forms { IfOk result (λ positions.
        All (λ p. IsOnCount (underlyings_in exchange.now.book market + 1) p.bundle)
        positions.items) }
    ensures held { IfOk result (λ positions. All IsHeldPosition positions.items) }
{
    exchange.positions_of(account, market)
}

/// The margin of the positions that an account has in a market, with their number; `None` where
/// they are more than
/// 256. The only error is want of memory.
pub(crate) fn margin_in(
    alloc: Global,
    exchange: &Exchange,
    account: u32,
    market: u32,
    limit: u32,
) -> Result<Option<(LeastMargin, u32)>, AllocError>
    ensures { IfOk result (IsMarginIn exchange.now account market limit) }
{
    let positions = positions_in(exchange, account, market)?;
    if positions.len() > MAX_ORDERS {
        return Ok(None);
    }
    let underlyings = exchange.underlyings_in(market);
    let count = positions.len() as u32;
    let margin = margin(alloc, &positions, underlyings, limit)?;
    Ok(Some((margin, count)))
}

// What is told of a margin.
fn told_margin(margin: &LeastMargin) -> ToldMargin
    ensures { result ≡ told_by margin.now }
{
    match margin {
        LeastMargin::Least { liability, at, .. } => ToldMargin::Least {
            liability: *liability,
            at: *at,
        },
        LeastMargin::Unbounded { ray } => ToldMargin::Unbounded { ray: *ray },
        LeastMargin::Wide { .. } => ToldMargin::Wide,
        LeastMargin::Budget => ToldMargin::Budget,
    }
}

// Why a margin is refused by what is told of its market.
fn refused_by(info: Option<MarketInfo>) -> Option<Refusal>
    ensures { result ≡ first_of (market_refusals info) }
{
    match info {
        None => Some(Refusal::NoMarket),
        Some(info) if info.settled => Some(Refusal::Settled),
        Some(_) => None,
    }
}

/// The margin that is asked for, or the first refusal that the request meets. The only error is
/// want of memory.
pub fn margin_reply(
    alloc: Global,
    exchange: &Exchange,
    request: &MarginRequest,
) -> Result<ServedReply, AllocError>
    ensures { IfOk result (λ reply. reply ≡ margin_reply exchange.now request.now) }
{
    if let Some(refusal) = refused_by(exchange.info(request.market)) {
        return Ok(ServedReply::Plain(refusal.reply()));
    }
    if exchange.balance(request.account).is_none() {
        return Ok(ServedReply::Plain(Refusal::NoAccount.reply()));
    }
    match margin_in(
        alloc,
        exchange,
        request.account,
        request.market,
        request.budget,
    )? {
        Some(counted) => Ok(ServedReply::Told(ProposalReply::Margin {
            account: request.account,
            market: request.market,
            margin: told_margin(&counted.0),
        })),
        None => Ok(ServedReply::Plain(Refusal::TooMany.reply())),
    }
}
