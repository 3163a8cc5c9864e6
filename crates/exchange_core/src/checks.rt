// What is looked at before a command has an effect. It takes no memory.
ghost use Rattle.std.specs.Prelude.{◌≢◌, Err};
ghost use Rattle.cash_ledger.specs.Refusals.{funds_refusals};
ghost use Rattle.order_book.specs.Refusals.{batch_refusals, close_refusals};
ghost use Rattle.order_book.specs.Within.{IsNewOrderWithin};
ghost use Rattle.command_text.specs.declared.command.Command.TheVariants as Command;
ghost use Rattle.exchange_core.specs.ExchangeState.{without_positions};
ghost use Rattle.exchange_core.specs.Kept.{AreJoined};
ghost use Rattle.exchange_core.specs.Refusals.{by_book, by_ledger, refusals, place_refusals};
ghost use Rattle.exchange_core.specs.Failures.{unless_memory};
ghost use Rattle.exchange_core.specs.declared.failure.Failure.TheVariants as Failure;
ghost use Rattle.lists.specs.Refusals.{TellsFirst};

use crate::failure::Failure;
use crate::reserve::check_cost;
use cash_ledger::Ledger;
use order_book::{Book, NewOrder};

// Looks whether an order may be placed: by its market, then by its account, then for want of room.
pub(crate) fn check_place(ledger: &Ledger, book: &Book, order: &NewOrder) -> Result<(), Failure>
    requires joined { AreJoined ledger.now book.now }
    requires within { IsNewOrderWithin order.now }
    ensures refused { TellsFirst unless_memory result
        (place_refusals (without_positions ledger.now book.now) order.now) }
    ensures no_memory { result ≢ Err Failure.Memory }
{
    book.check_order(order)?;
    check_cost(ledger, order)?;
    book.check_room(order.market)?;
    Ok(())
}

// Looks whether an account may cancel a live order.
pub(crate) fn check_cancel(
    ledger: &Ledger,
    book: &Book,
    account: u32,
    number: u64,
) -> Result<(), Failure>
    ensures refused { TellsFirst unless_memory result
        (refusals (without_positions ledger.now book.now) (Command.Cancel account number)) }
    ensures no_memory { result ≢ Err Failure.Memory }
{
    ledger.check_account(account)?;
    book.check_cancel(account, number)?;
    Ok(())
}

// Looks whether a market may be cleared.
pub(crate) fn check_clear(book: &Book, market: u32) -> Result<(), Failure>
    ensures refused { TellsFirst unless_memory result
        (by_book (batch_refusals book.now market)) }
    ensures no_memory { result ≢ Err Failure.Memory }
{
    book.check_batch(market)?;
    Ok(())
}

// Looks whether a market may be settled at this number of prices.
pub(crate) fn check_settlement(book: &Book, market: u32, count: u8) -> Result<(), Failure>
    ensures refused { TellsFirst unless_memory result
        (by_book (close_refusals book.now market count)) }
    ensures no_memory { result ≢ Err Failure.Memory }
{
    book.check_close(market, count)?;
    Ok(())
}

// Looks whether an account may withdraw an amount.
pub(crate) fn check_withdrawal(ledger: &Ledger, account: u32, amount: u64) -> Result<(), Failure>
    ensures refused { TellsFirst unless_memory result
        (by_ledger (funds_refusals ledger.now account amount)) }
    ensures no_memory { result ≢ Err Failure.Memory }
{
    ledger.check_payment(account, amount)?;
    Ok(())
}
