// What is quoted and priced of a market, or why nothing is.
ghost use Rattle.std.specs.Prelude.{◌≡◌, ◌≤◌, IfOk, IfSome, None};
ghost use Rattle.form.specs.declared.limits.TheConstants.{MAX_QUANTITY, MAX_UNDERLYINGS};
ghost use Rattle.order_book.specs.Book.{info_in};
ghost use Rattle.exchange_core.specs.Kept.{IsKept};
ghost use Rattle.lists.specs.Refusals.{first_of};
ghost use Rattle.option_quotes.specs.Thresholds.{MayBeQuoted};
ghost use Rattle.command_text.specs.Within.{IsQuoteWithin};
ghost use Rattle.quote_lines.specs.Replies.{asked_batch, asked_reply, price_of, priced_for, prices_told, quoted_for, quoted_price, side_told, told_for};
ghost use Rattle.quote_lines.specs.Refusals.{info_refusals};

use command_text::QuoteRequest;
use exchange_core::{Exchange, Refusal};
use form::{Batch, MAX_ORDERS, Side};
use option_quotes::{MarketPrices, Quoted, SidePrice, implied_prices, quote};
use order_book::{BookRefusal, MarketInfo};
use proposal_text::{ProposalReply, QuotedPrice, ServedReply};
use std::alloc::{AllocError, Global};

// The price that a quote tells.
fn price_of(quoted: &Quoted) -> QuotedPrice
    ensures { result ≡ price_of quoted.now }
{
    match quoted {
        Quoted::At { price, .. } => QuotedPrice::At { price: *price },
        Quoted::Never { .. } => QuotedPrice::Never,
        Quoted::Unmarked { .. } => QuotedPrice::Unmarked,
    }
}

// The price at which one further order on the side raises the surplus.
fn quoted_price(
    alloc: Global,
    batch: &Batch,
    request: &QuoteRequest,
    side: Side,
) -> Result<QuotedPrice, AllocError>
    requires request { IsQuoteWithin request.now }
    requires batch { MayBeQuoted batch.now request.now.form }
    ensures { IfOk result (λ price. price ≡ quoted_price batch.now request.now side) }
{
    let quoted = quote(alloc, batch, &request.form, side, request.budget)?;
    Ok(price_of(&quoted))
}

// What is quoted of the live orders of a market.
fn quoted_for(
    alloc: Global,
    batch: &Batch,
    request: &QuoteRequest,
) -> Result<ProposalReply, AllocError>
    requires request { IsQuoteWithin request.now }
    requires batch { MayBeQuoted batch.now request.now.form }
    ensures { IfOk result (λ reply. reply ≡ quoted_for batch.now request.now) }
{
    Ok(ProposalReply::Quoted {
        market: request.market,
        bid: quoted_price(alloc, batch, request, Side::Buy)?,
        ask: quoted_price(alloc, batch, request, Side::Sell)?,
    })
}

// The price that a side's probes tell.
fn side_told(price: &SidePrice) -> QuotedPrice
    ensures { result ≡ side_told price.now }
{
    match price {
        SidePrice::At { price, .. } => QuotedPrice::At { price: *price },
        SidePrice::Never { .. } => QuotedPrice::Never,
        SidePrice::Unmarked { .. } | SidePrice::Spent => QuotedPrice::Unmarked,
    }
}

// The reply of prices.
fn prices_told(market: u32, quantity: u32, prices: &MarketPrices) -> ProposalReply
    ensures { result ≡ prices_told market quantity prices.now }
{
    let (ask, bid) = match prices {
        MarketPrices::Marked { ask, bid, .. } => (side_told(ask), side_told(bid)),
        MarketPrices::Unmarked { .. } => (QuotedPrice::Unmarked, QuotedPrice::Unmarked),
    };
    ProposalReply::Priced {
        market,
        quantity,
        ask,
        bid,
    }
}

// The prices of so many options by the live orders of a market.
fn priced_for(
    alloc: Global,
    batch: &Batch,
    request: &QuoteRequest,
    quantity: u32,
) -> Result<ProposalReply, AllocError>
    requires request { IsQuoteWithin request.now }
    requires quantity { (1 ≤ quantity) × (quantity ≤ MAX_QUANTITY) }
    requires batch { MayBeQuoted batch.now request.now.form }
    ensures { IfOk result (λ reply. reply ≡ priced_for batch.now request.now quantity) }
{
    let prices = implied_prices(alloc, batch, &request.form, quantity, request.budget)?;
    Ok(prices_told(request.market, quantity, &prices))
}

// What is told of the live orders of a market: a quote, or the prices of so many.
fn told_for(
    alloc: Global,
    batch: &Batch,
    request: &QuoteRequest,
    quantity: Option<u32>,
) -> Result<ProposalReply, AllocError>
    requires request { IsQuoteWithin request.now }
    requires quantity { IfSome quantity (λ q. (1 ≤ q) × (q ≤ MAX_QUANTITY)) }
    requires batch { MayBeQuoted batch.now request.now.form }
    ensures { IfOk result (λ reply. reply ≡ told_for batch.now request.now quantity) }
{
    match quantity {
        None => quoted_for(alloc, batch, request),
        Some(quantity) => priced_for(alloc, batch, request, quantity),
    }
}

// Why a request is refused by what is told of its market.
fn refused_by(info: Option<MarketInfo>, request: &QuoteRequest) -> Option<Refusal>
    requires { IfSome info (λ info. info.underlyings ≤ MAX_UNDERLYINGS) }
    ensures { result ≡ first_of (info_refusals info request.now) }
{
    let Some(info) = info else {
        return Some(Refusal::NoMarket);
    };
    if info.settled {
        Some(Refusal::Settled)
    } else if request.form.count != info.underlyings + 1 {
        Some(Refusal::WeightCount)
    } else if MAX_ORDERS as u32 <= info.live {
        Some(Refusal::BookFull)
    } else {
        None
    }
}

// The live orders of a market which refuses nothing by what is told of it, or that there are as many
// batches as there may be.
fn live_batch(
    exchange: &Exchange,
    request: &QuoteRequest,
) -> Result<Result<Batch, Refusal>, AllocError>
    requires request { IsQuoteWithin request.now }
    requires kept { IsKept exchange.now }
    requires told { first_of
        (info_refusals (info_in exchange.now.book request.now.market) request.now) ≡ None }
    ensures asked { IfOk result (λ found. found ≡ asked_batch exchange.now request.now) }
    ensures may { IfOk result (λ found. IfOk found (λ batch. MayBeQuoted batch request.now.form)) }
{
    match exchange.live(request.market) {
        Ok(batch) => Ok(Ok(batch)),
        Err(BookRefusal::TooMany) => Ok(Err(Refusal::TooMany)),
        // The market is there and trades: what is left is want of memory.
        Err(_) => Err(AllocError),
    }
}

/// The live orders of the market of a request, or the first refusal that it meets. The only error is
/// want of memory.
pub(crate) fn asked_batch(
    exchange: &Exchange,
    request: &QuoteRequest,
) -> Result<Result<Batch, Refusal>, AllocError>
    requires request { IsQuoteWithin request.now }
    ensures asked { IfOk result (λ found. found ≡ asked_batch exchange.now request.now) }
    ensures may { IfOk result (λ found. IfOk found (λ batch. MayBeQuoted batch request.now.form)) }
{
    match refused_by(exchange.info(request.market), request) {
        Some(refusal) => Ok(Err(refusal)),
        None => live_batch(exchange, request),
    }
}

/// What is told, a quote or the prices of so many, or the first refusal that the request meets. The
/// only error is want of memory.
pub fn asked_reply(
    alloc: Global,
    exchange: &Exchange,
    request: &QuoteRequest,
    quantity: Option<u32>,
) -> Result<ServedReply, AllocError>
    requires request { IsQuoteWithin request.now }
    requires quantity { IfSome quantity (λ q. (1 ≤ q) × (q ≤ MAX_QUANTITY)) }
    ensures { IfOk result (λ reply. reply ≡ asked_reply exchange.now request.now quantity) }
{
    match asked_batch(exchange, request)? {
        Ok(batch) => Ok(ServedReply::Told(told_for(alloc, &batch, request, quantity)?)),
        Err(refusal) => Ok(ServedReply::Plain(refusal.reply())),
    }
}
