//! What is told and changes nothing, whether a line says it or it is asked between lines.
ghost use Rattle.std.specs.Prelude.{◌≡◌, IfOk, Ok};
ghost use Rattle.command_text.specs.Within.{IsInside, RequestIsWithin};
ghost use Rattle.proposal_lines.specs.Asked.{in_form, told_reply};

use crate::proposed::proposed_of;
use crate::reads::{balance_reply, book_reply, positions_reply};
use crate::replies::refused_by_fault;
use crate::trials::trial_reply;
use command_text::asked::Fault;
use command_text::{Command, Request};
use exchange_core::Exchange;
use guarded_lines::margin_reply;
use proposal_text::ServedReply;
use quote_lines::asked_reply;
use std::alloc::{AllocError, Global};

// What is told for a line that asks this.
fn told_request(
    alloc: Global,
    exchange: &Exchange,
    request: &Request,
) -> Result<Option<ServedReply>, AllocError>
    requires { RequestIsWithin request.now }
    ensures { IfOk result (λ told. told ≡ told_reply exchange.now (Ok request.now)) }
{
    match request {
        Request::Command(Command::Balance { account }) => {
            Ok(Some(balance_reply(exchange, *account)))
        }
        Request::Quote(request) => Ok(Some(asked_reply(alloc, exchange, request, None)?)),
        Request::Price(request) => {
            let quantity = Some(request.quantity);
            Ok(Some(asked_reply(alloc, exchange, &request.quote, quantity)?))
        }
        Request::Margin(request) => Ok(Some(margin_reply(alloc, exchange, request)?)),
        Request::Book { market } => Ok(Some(book_reply(exchange, *market)?)),
        Request::Positions { account, market } => {
            Ok(Some(positions_reply(exchange, *account, *market)?))
        }
        Request::Try(request) => Ok(Some(trial_reply(alloc, exchange, request)?)),
        _ => Ok(None),
    }
}

/// What is told for a line that says this: a balance, a quote, prices, a margin, live orders,
/// positions, what a clear would tell of an order, or the fault of a line that has one. `None` of
/// any other. The only error is want of memory.
pub fn told_reply(
    alloc: Global,
    exchange: &Exchange,
    said: &Result<Request, Fault>,
) -> Result<Option<ServedReply>, AllocError>
    requires { IfOk said.now RequestIsWithin }
    ensures { IfOk result (λ told. told ≡ told_reply exchange.now said.now) }
{
    match said {
        Ok(request) => told_request(alloc, exchange, request),
        Err(fault) => Ok(Some(refused_by_fault(*fault))),
    }
}

/// What a line of these bytes says, where one that proposes is read to its end: it has a fault
/// unless its text is a proposal. The only error is want of memory.
pub fn in_form(
    alloc: Global,
    line: &[u8],
    said: Result<Request, Fault>,
) -> Result<Result<Request, Fault>, AllocError>
    requires within { IfOk said RequestIsWithin }
    requires inside { IfOk said (IsInside line.now) }
    ensures says { IfOk result (λ heard. heard ≡ in_form line.now said) }
    ensures within { IfOk result (λ heard. IfOk heard RequestIsWithin) }
{
    match said {
        Ok(Request::Propose(request)) => match proposed_of(alloc, line, request)? {
            Ok(_) => Ok(Ok(Request::Propose(request))),
            Err(fault) => Ok(Err(fault)),
        },
        said => Ok(said),
    }
}
