// The reply to what a line says.
ghost use Rattle.std.specs.Prelude.{◌≡◌, IfOk, OnErr};
ghost use Rattle.command_text.specs.Within.{BodyIsWithin, RequestIsWithin};
ghost use Rattle.guarded_lines.specs.Replies.{covered_reply_to, guarded_reply_to};

use crate::margins::margin_reply;
use crate::withdrawals::uncovered_by;
use command_text::asked::Fault;
use command_text::bodies::body_of_said;
use command_text::{Body, Request};
use exchange_core::Exchange;
use proposal_text::{ProposalReply, ServedReply};
use std::alloc::{AllocError, Global};

// A run's, but for a withdrawal that would leave its account less than its positions demand.
fn covered_reply_to(
    alloc: Global,
    exchange: &mut Exchange,
    said: &Body,
) -> Result<ServedReply, AllocError>
    requires { BodyIsWithin said.now }
    ensures ok { IfOk result (λ reply.
        (reply, exchange.new) ≡ covered_reply_to exchange.old said.now) }
    ensures err { OnErr result (exchange.new ≡ exchange.old) }
{
    match uncovered_by(alloc, exchange, said)? {
        Some(need) => Ok(ServedReply::Told(ProposalReply::Uncovered { need })),
        None => Ok(ServedReply::Plain(exchange_core::reply_to(exchange, said)?)),
    }
}

/// Takes the exchange one line further: a line of a run as there, but for a withdrawal that would
/// leave its account less than its positions demand; that and a request for a margin change
/// nothing.
///
/// Want of memory leaves the exchange as it was.
pub fn reply_to(
    alloc: Global,
    exchange: &mut Exchange,
    said: Result<Request, Fault>,
) -> Result<ServedReply, AllocError>
    requires { IfOk said RequestIsWithin }
    ensures ok { IfOk result (λ reply.
        (reply, exchange.new) ≡ guarded_reply_to exchange.old said) }
    ensures err { OnErr result (exchange.new ≡ exchange.old) }
{
    match said {
        Ok(Request::Margin(request)) => margin_reply(alloc, exchange, &request),
        said => covered_reply_to(alloc, exchange, &body_of_said(said)),
    }
}
