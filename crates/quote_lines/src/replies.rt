// The reply to what a line says.
ghost use Rattle.std.specs.Prelude.{◌≡◌, IfOk, OnErr};
ghost use Rattle.command_text.specs.Within.{RequestIsWithin};
ghost use Rattle.quote_lines.specs.Replies.{quotes_reply_to};

use crate::quoting::asked_reply;
use command_text::Request;
use command_text::asked::Fault;
use command_text::bodies::body_of_said;
use exchange_core::Exchange;
use proposal_text::ServedReply;
use std::alloc::{AllocError, Global};

/// Takes the exchange one line further: a line of a run as there, and a request changes nothing.
///
/// Want of memory leaves the exchange as it was.
pub fn reply_to(
    alloc: Global,
    exchange: &mut Exchange,
    said: Result<Request, Fault>,
) -> Result<ServedReply, AllocError>
    requires { IfOk said RequestIsWithin }
    ensures ok { IfOk result (λ reply.
        (reply, exchange.new) ≡ quotes_reply_to exchange.old said) }
    ensures err { OnErr result (exchange.new ≡ exchange.old) }
{
    match said {
        Ok(Request::Quote(request)) => asked_reply(alloc, exchange, &request, None),
        Ok(Request::Price(request)) => {
            asked_reply(alloc, exchange, &request.quote, Some(request.quantity))
        }
        said => {
            let body = body_of_said(said);
            Ok(ServedReply::Plain(exchange_core::reply_to(exchange, &body)?))
        }
    }
}
