// Lines that close a market, or open it again.
ghost use Rattle.std.specs.Prelude.{◌≡◌, IfOk, IsSomeAnd};
ghost use Rattle.auction_phases.specs.Refusals.{unless_memory};
ghost use Rattle.serve_lines.specs.Phased.{closed_by, refused_by, reopened_by};

use auction_phases::{PhaseFailure, PhaseRefusal, Phases};
use exchange_core::Exchange;
use proposal_text::{ProposalReply, ServedReply};
use std::alloc::AllocError;

fn refused_by(refusal: PhaseRefusal) -> ServedReply
    ensures { result ≡ refused_by refusal }
{
    match refusal {
        PhaseRefusal::Exchange(first) => ServedReply::Plain(first.reply()),
        PhaseRefusal::Closed => ServedReply::Told(ProposalReply::MarketIsClosed),
        PhaseRefusal::Open => ServedReply::Told(ProposalReply::MarketIsOpen),
    }
}

// The reply to a request that fails. Want of memory has none.
fn refused(failure: PhaseFailure) -> Result<ServedReply, AllocError>
    ensures { IfOk result (λ reply.
        IsSomeAnd (unless_memory failure) (λ first. reply ≡ refused_by first)) }
{
    match failure {
        PhaseFailure::Refused(refusal) => Ok(refused_by(refusal)),
        PhaseFailure::Memory => Err(AllocError),
    }
}

// Closes a market. The only error is want of memory.
pub(crate) fn close(
    exchange: &Exchange,
    phases: &mut Phases,
    market: u32,
) -> Result<ServedReply, AllocError>
    ensures { IfOk result (λ reply.
        (reply, phases.new) ≡ closed_by exchange.now phases.old market) }
{
    match phases.close(exchange, market) {
        Ok(orders) => Ok(ServedReply::Told(ProposalReply::Closed { market, orders })),
        Err(failure) => refused(failure),
    }
}

// Opens a market again.
pub(crate) fn reopen(exchange: &Exchange, phases: &mut Phases, market: u32) -> ServedReply
    ensures { (result, phases.new) ≡ reopened_by exchange.now phases.old market }
{
    match phases.reopen(exchange, market) {
        Ok(()) => ServedReply::Told(ProposalReply::Reopened { market }),
        Err(refusal) => refused_by(refusal),
    }
}
