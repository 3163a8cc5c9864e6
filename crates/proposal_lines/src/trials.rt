//! What is told of an order that is tried.
ghost use Rattle.std.specs.Prelude.{◌≡◌, IfOk};
ghost use Rattle.command_text.specs.Within.{IsTryWithin};
ghost use Rattle.proposal_lines.specs.Trials.{trial_of, trial_reply};

use crate::kept_by_market::stop_of;
use command_text::TryRequest;
use exchange_core::Exchange;
use option_quotes::Tried;
use proposal_text::{ProposalReply, ServedReply, Trial};
use std::alloc::{AllocError, Global};

// What is told of it by a clear.
fn trial_of(tried: &Tried) -> Trial
    ensures { result ≡ trial_of tried.now }
{
    Trial {
        fill: tried.fill,
        surplus: tried.outcome.claim.surplus,
        stopped: stop_of(&tried.outcome.mark),
    }
}

/// What a clear of the market would tell of the order, if it came next with the order behind the
/// live ones and nothing were proposed, or the first refusal that is met. The exchange stays as it
/// is. The only error is want of memory.
pub fn trial_reply(
    alloc: Global,
    exchange: &Exchange,
    request: &TryRequest,
) -> Result<ServedReply, AllocError>
    requires { IsTryWithin request.now }
    ensures { IfOk result (λ reply. reply ≡ trial_reply exchange.now request.now) }
{
    let tried = quote_lines::tried_reply(alloc, exchange, request)?;
    match tried {
        Ok(tried) => Ok(ServedReply::Told(ProposalReply::Tried {
            market: request.quote.market,
            trial: trial_of(&tried),
        })),
        Err(refusal) => Ok(ServedReply::Plain(refusal.reply())),
    }
}
