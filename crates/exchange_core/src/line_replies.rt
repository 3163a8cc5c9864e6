//! The reply to what a line says.
ghost use Rattle.std.specs.Prelude.{◌≡◌, IfOk, OnErr};
ghost use Rattle.command_text.specs.Within.{BodyIsWithin};
ghost use Rattle.exchange_core.specs.LineReplies.{reply_to};

use crate::{Exchange, Refusal, Reply};
use command_text::Body;
use std::alloc::AllocError;

/// Takes the exchange one line further: a command is one step, and any other line is refused.
///
/// Want of memory leaves the exchange as it was.
pub fn reply_to(exchange: &mut Exchange, said: &Body) -> Result<Reply, AllocError>
    requires { BodyIsWithin said.now }
    ensures ok { IfOk result (λ reply. (reply, exchange.new) ≡ reply_to exchange.old said.now) }
    ensures err { OnErr result (exchange.new ≡ exchange.old) }
{
    match said {
        Body::Command(command) => exchange.step(command),
        Body::Syntax => Ok(Refusal::Syntax.reply()),
        Body::Range { field } => Ok(Refusal::Range { field: *field }.reply()),
    }
}
