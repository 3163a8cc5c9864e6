// Withdrawals that would leave an account less than its positions demand.
ghost use Rattle.std.specs.Prelude.{◌≡◌, ◌≤ℤ◌, ◌<ℤ◌, ◌-ℤ◌, pos, IfOk, MatchOption};
ghost use Rattle.guarded_lines.specs.Withdrawals.{IsLeftBy, covers, uncovered_by, uncovered_withdrawal};

use crate::needs::need_of;
use command_text::{Body, Command};
use exchange_core::Exchange;
use proposal_text::Need;
use std::alloc::{AllocError, Global};

// What of a balance is left after its reserve and an amount, where that is not below 0.
fn left_of(balance: i128, reserved: i128, amount: u64) -> Option<u128>
    requires { pos 0 ≤ℤ reserved }
    ensures { MatchOption result ((balance -ℤ reserved) <ℤ pos amount)
        (λ left. pos left ≡ (balance -ℤ reserved) -ℤ pos amount) }
{
    let taken = reserved.unsigned_abs() + u128::from(amount);
    if balance < 0 {
        return None;
    }
    balance.unsigned_abs().checked_sub(taken)
}

// What a withdrawal leaves free of its account's balance, where a run accepts it.
fn left_by(exchange: &Exchange, account: u32, amount: u64) -> Option<u128>
    ensures { IsLeftBy exchange.now account amount result }
{
    let balance = exchange.balance(account)?;
    let reserved = exchange.reserved(account)?;
    left_of(balance, reserved, amount)
}

// Whether so much is what is needed.
fn covers(need: Need, left: u128) -> bool
    ensures { result ≡ covers need (pos left) }
{
    match need {
        Need::Amount { amount } => amount <= left,
        _ => false,
    }
}

// The need that a withdrawal would leave uncovered, where a run accepts it.
fn uncovered_withdrawal(
    alloc: Global,
    exchange: &Exchange,
    account: u32,
    amount: u64,
) -> Result<Option<Need>, AllocError>
    ensures { IfOk result (λ o. o ≡ uncovered_withdrawal exchange.now account amount) }
{
    let Some(left) = left_by(exchange, account, amount) else {
        return Ok(None);
    };
    let need = need_of(alloc, exchange, account)?;
    if covers(need, left) {
        Ok(None)
    } else {
        Ok(Some(need))
    }
}

/// The need that a line would leave uncovered: a withdrawal's alone, and none of one that a run
/// refuses. The only error is want of memory.
pub(crate) fn uncovered_by(
    alloc: Global,
    exchange: &Exchange,
    said: &Body,
) -> Result<Option<Need>, AllocError>
    ensures { IfOk result (λ o. o ≡ uncovered_by exchange.now said.now) }
{
    match said {
        Body::Command(Command::Withdraw { account, amount }) => {
            uncovered_withdrawal(alloc, exchange, *account, *amount)
        }
        _ => Ok(None),
    }
}
