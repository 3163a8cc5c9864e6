// The replies to lines that are refused.
ghost use Rattle.std.specs.Prelude.{◌≡◌, IfOk, IsSomeAnd};
ghost use Rattle.exchange_core.specs.Failures.{unless_memory};
ghost use Rattle.proposal_lines.specs.Reads.{refused_by, refused_by_fault};

use command_text::asked::Fault;
use exchange_core::{Failure, Refusal};
use proposal_text::ServedReply;
use std::alloc::AllocError;

// The reply to a line that is none of the form that its word demands.
pub(crate) fn refused_by_fault(fault: Fault) -> ServedReply
    ensures { result ≡ refused_by_fault fault }
{
    match fault {
        Fault::Syntax => ServedReply::Plain(Refusal::Syntax.reply()),
        Fault::Range { field } => ServedReply::Plain(Refusal::Range { field }.reply()),
    }
}

// The reply to a request that fails. Want of memory has none.
pub(crate) fn refused(failure: Failure) -> Result<ServedReply, AllocError>
    ensures { IfOk result (λ reply.
        IsSomeAnd (unless_memory failure) (λ first. reply ≡ refused_by first)) }
{
    match failure {
        Failure::Refused(refusal) => Ok(ServedReply::Plain(refusal.reply())),
        Failure::Memory => Err(AllocError),
    }
}
