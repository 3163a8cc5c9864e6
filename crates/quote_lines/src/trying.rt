//! What is told of a further order, which changes nothing.
ghost use Rattle.std.specs.Prelude.{◌≡◌, IfOk};
ghost use Rattle.command_text.specs.Within.{IsTryWithin};
ghost use Rattle.option_quotes.specs.Thresholds.{MayBeQuoted};
ghost use Rattle.quote_lines.specs.Replies.{tried_for, tried_reply};

use crate::quoting::asked_batch;
use command_text::TryRequest;
use exchange_core::{Exchange, Refusal};
use form::Batch;
use option_quotes::{Tried, try_order};
use std::alloc::{AllocError, Global};

// What a clear would tell of the order, behind the live orders of its market.
fn tried_for(alloc: Global, batch: &Batch, request: &TryRequest) -> Result<Tried, AllocError>
    requires request { IsTryWithin request.now }
    requires batch { MayBeQuoted batch.now request.now.quote.form }
    ensures { IfOk result (λ tried. tried ≡ tried_for batch.now request.now) }
{
    let TryRequest {
        quote,
        side,
        price,
        quantity,
    } = *request;
    try_order(
        alloc,
        batch,
        &quote.form,
        side,
        quantity,
        price,
        quote.budget,
    )
}

/// What a clear of the market would tell of an order, if it came next with the order behind the live
/// ones, or the first refusal that the request meets: those of a request for prices. The exchange
/// stays as it is. The only error is want of memory.
pub fn tried_reply(
    alloc: Global,
    exchange: &Exchange,
    request: &TryRequest,
) -> Result<Result<Tried, Refusal>, AllocError>
    requires { IsTryWithin request.now }
    ensures { IfOk result (λ told. told ≡ tried_reply exchange.now request.now) }
{
    match asked_batch(exchange, &request.quote)? {
        Ok(batch) => Ok(Ok(tried_for(alloc, &batch, request)?)),
        Err(refusal) => Ok(Err(refusal)),
    }
}
