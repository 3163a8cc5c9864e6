// How an order is placed and taken out again: the book holds it, and the ledger reserves what it
// costs.
ghost use Rattle.std.specs.Prelude.{◌≡◌, ◌+◌, None, IfErr, IfOk, OnOk, OnErr};
ghost use Rattle.order_book.specs.Book.{with_order, without_order};
ghost use Rattle.order_book.specs.Within.{IsNewOrderWithin};
ghost use Rattle.command_text.specs.declared.command.Command.TheVariants as Command;
ghost use Rattle.exchange_core.specs.ExchangeState.{without_positions};
ghost use Rattle.exchange_core.specs.Kept.{AreJoined};
ghost use Rattle.exchange_core.specs.Refusals.{refusals, place_refusals};
ghost use Rattle.exchange_core.specs.Failures.{unless_memory};
ghost use Rattle.exchange_core.specs.declared.failure.Failure.TheVariants as Failure;
ghost use Rattle.lists.specs.Refusals.{first_of, TellsFirst};

use crate::failure::Failure;
use crate::reserve::{release_cost, reserve_cost};
use cash_ledger::Ledger;
use order_book::{Book, NewOrder};

// Places an order that is not refused and reserves what it costs, and answers its number. It fails
// for want of memory alone.
pub(crate) fn place(ledger: &mut Ledger, book: &mut Book, order: &NewOrder) -> Result<u64, Failure>
    requires joined { AreJoined ledger.old book.old }
    requires within { IsNewOrderWithin order.now }
    requires accepted { first_of
        (place_refusals (without_positions ledger.old book.old) order.now) ≡ None }
    ensures only { IfErr result (λ failure. failure ≡ Failure.Memory) }
    ensures number { IfOk result (λ number. number ≡ book.old.accepted + 1) }
    ensures ok { OnOk result (book.new ≡ with_order book.old order.now) }
    ensures accounts { ledger.new.accounts ≡ ledger.old.accounts }
    ensures entries { ledger.new.entries ≡ ledger.old.entries }
    ensures joined { AreJoined ledger.new book.new }
    ensures err { OnErr result (book.new ≡ book.old) }
{
    let number = book.place(order)?;
    reserve_cost(ledger, order);
    Ok(number)
}

// Takes a live order of an account out, and gives free what it reserves.
pub(crate) fn cancel(
    ledger: &mut Ledger,
    book: &mut Book,
    account: u32,
    number: u64,
) -> Result<(), Failure>
    requires joined { AreJoined ledger.old book.old }
    ensures refused { TellsFirst unless_memory result
        (refusals (without_positions ledger.old book.old) (Command.Cancel account number)) }
    ensures ok { OnOk result (book.new ≡ without_order book.old number) }
    ensures accounts { ledger.new.accounts ≡ ledger.old.accounts }
    ensures entries { ledger.new.entries ≡ ledger.old.entries }
    ensures joined { AreJoined ledger.new book.new }
    ensures err { OnErr result (book.new ≡ book.old) }
{
    ledger.check_account(account)?;
    let order = book.cancel(account, number)?;
    release_cost(ledger, &order);
    Ok(())
}
