// Lines that tell the live orders of a market.
ghost use Rattle.std.specs.Prelude.{◌≡◌, IfOk, IfSome};
ghost use Rattle.proposal_text.specs.Within.{IsProposalReplyWithin};
ghost use Rattle.book_proposals.specs.Found.{IsBookIn, IsFound, reply_in};

use crate::batch_limits::is_within_limits;
use form::Batch;
use proposal_text::{ProposalReply, read_proposal_reply};
use reply_text::LineFault;
use std::alloc::{AllocError, Global};

// The live orders of a market.
#[derive(Drop)]
pub(crate) struct Book {
    pub(crate) market: u32,
    pub(crate) batch: Batch,
}

// The reply about proposals of which a line is the print.
fn reply_in(alloc: Global, line: &[u8]) -> Result<Option<ProposalReply>, AllocError>
    ensures is { IfOk result (λ read. read ≡ reply_in line.now) }
    ensures within { IfOk result (λ read. IfSome read IsProposalReplyWithin) }
{
    match read_proposal_reply(alloc, line) {
        Ok((_, reply)) => Ok(Some(reply)),
        Err(LineFault::Memory) => Err(AllocError),
        Err(_) => Ok(None),
    }
}

// The book that a reply tells, where its orders can be live.
fn book_in(reply: ProposalReply) -> Option<Book>
    requires { IsProposalReplyWithin reply }
    ensures { IsBookIn reply result }
{
    let ProposalReply::Book { market, batch } = reply else {
        return None;
    };
    if is_within_limits(&batch) {
        Some(Book { market, batch })
    } else {
        None
    }
}

// The book that a line tells; `None` where it tells none.
pub(crate) fn book_of(alloc: Global, line: &[u8]) -> Result<Option<Book>, AllocError>
    ensures { IfOk result (IsFound line.now) }
{
    let Some(reply) = reply_in(alloc, line)? else {
        return Ok(None);
    };
    Ok(book_in(reply))
}
