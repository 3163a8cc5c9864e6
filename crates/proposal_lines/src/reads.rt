// What is told of a market's live orders, of an account's positions in it, and of its balance.
ghost use Rattle.std.specs.Prelude.{◌≡◌, IfOk};
ghost use Rattle.proposal_lines.specs.Reads.{balance_reply, book_reply, positions_reply};

use crate::replies::refused;
use exchange_core::{Exchange, Refusal, Reply};
use proposal_text::{Positions, ProposalReply, ServedReply};
use std::alloc::AllocError;

/// The live orders of a market, or the first refusal that is met. The only error is want of memory.
pub(crate) fn book_reply(exchange: &Exchange, market: u32) -> Result<ServedReply, AllocError>
    ensures { IfOk result (λ reply. reply ≡ book_reply exchange.now market) }
{
    match exchange.orders(market) {
        Ok(batch) => Ok(ServedReply::Told(ProposalReply::Book { market, batch })),
        Err(failure) => refused(failure),
    }
}

/// The positions of an account in a market, or the first refusal that is met. The only error is
/// want of memory.
pub(crate) fn positions_reply(
    exchange: &Exchange,
    account: u32,
    market: u32,
) -> Result<ServedReply, AllocError>
    ensures { IfOk result (λ reply. reply ≡ positions_reply exchange.now account market) }
{
    match exchange.positions(account, market) {
        Ok(positions) => Ok(ServedReply::Told(ProposalReply::Positions {
            account,
            market,
            positions: Positions::from_vec(positions),
        })),
        Err(failure) => refused(failure),
    }
}

/// The balance of an account and what is reserved of it, as a run tells them.
pub(crate) fn balance_reply(exchange: &Exchange, account: u32) -> ServedReply
    ensures { result ≡ balance_reply exchange.now account }
{
    match (exchange.balance(account), exchange.reserved(account)) {
        (Some(balance), Some(reserved)) => ServedReply::Plain(Reply::Balance {
            account,
            balance,
            reserved,
        }),
        _ => ServedReply::Plain(Refusal::NoAccount.reply()),
    }
}
