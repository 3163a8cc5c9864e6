// What a line is told that secures an account, or asks what one needs.
ghost use Rattle.std.specs.Prelude.{◌≡◌, IfOk};
ghost use Rattle.command_text.specs.Within.{IsAccount};
ghost use Rattle.secured_lines.specs.Replies.{need_answered, needed_by, refused_by, secure_answered, secured_by, told_need, uncovered_reply};

use account_need::NoNeed;
use exchange_core::Exchange;
use proposal_text::{AccountNeed, Need as Told, ProposalReply, ServedReply};
use secured_accounts::{Need, SecuredAccounts, SecuringRefusal, ToldNeed};
use std::alloc::{AllocError, Global};

// A need by its name in a reply.
fn told_need(need: Need) -> Told
    ensures { result ≡ told_need need }
{
    match need {
        Ok(amount) => Told::Amount { amount },
        Err(NoNeed::Positions) => Told::Positions,
        Err(NoNeed::Unbounded) => Told::Unbounded,
        Err(NoNeed::Wide) => Told::Wide,
        Err(NoNeed::Budget) => Told::Budget,
        Err(NoNeed::Sum) => Told::Sum,
    }
}

/// A balance is not enough for this need.
pub(crate) fn uncovered_reply(need: Need) -> ServedReply
    ensures { result ≡ uncovered_reply need }
{
    ServedReply::Told(ProposalReply::Uncovered {
        need: told_need(need),
    })
}

fn refused_by(refusal: SecuringRefusal) -> ServedReply
    ensures { result ≡ refused_by refusal }
{
    match refusal {
        SecuringRefusal::Exchange(first) => ServedReply::Plain(first.reply()),
        SecuringRefusal::Uncovered(need) => uncovered_reply(need),
    }
}

// An account whose need is a word is not secured.
fn secure_answered(account: u32, answer: Result<Need, SecuringRefusal>) -> ServedReply
    ensures { result ≡ secure_answered account answer }
{
    match answer {
        Ok(Ok(amount)) => ServedReply::Told(ProposalReply::Secured {
            account,
            need: amount,
        }),
        Ok(word) => uncovered_reply(word),
        Err(refusal) => refused_by(refusal),
    }
}

fn need_answered(account: u32, answer: Result<ToldNeed, SecuringRefusal>) -> ServedReply
    ensures { result ≡ need_answered account answer }
{
    match answer {
        Ok(told) => ServedReply::Told(ProposalReply::Needs(AccountNeed {
            account,
            balance: told.balance,
            need: told_need(told.need),
            secured: told.secured,
        })),
        Err(refusal) => refused_by(refusal),
    }
}

/// Secures an account. The only error is want of memory.
pub(crate) fn secure(
    alloc: Global,
    exchange: &Exchange,
    accounts: &mut SecuredAccounts,
    account: u32,
) -> Result<ServedReply, AllocError>
    requires { IsAccount account }
    ensures { IfOk result (λ reply.
        (reply, accounts.new) ≡ secured_by exchange.now accounts.old account) }
{
    let answer = accounts.secure(alloc, exchange, account)?;
    Ok(secure_answered(account, answer))
}

/// Tells what an account needs. The only error is want of memory.
pub(crate) fn need(
    alloc: Global,
    exchange: &Exchange,
    accounts: &SecuredAccounts,
    account: u32,
) -> Result<ServedReply, AllocError>
    ensures { IfOk result (λ reply. reply ≡ needed_by exchange.now accounts.now account) }
{
    let answer = accounts.need(alloc, exchange, account)?;
    Ok(need_answered(account, answer))
}
