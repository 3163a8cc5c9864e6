// How a batch is charged, and what is paid.
ghost use Rattle.std.specs.Prelude.{◌≡◌, ◌+◌, ◌*◌, ◌≤◌, ◌<◌, ◌++◌, true, Some, length, map, IfOk, OnErr, OnOk};
ghost use Rattle.std.specs.List.{All};
ghost use Rattle.std.specs.Option.{option_map};
ghost use Rattle.cash_ledger.specs.Ledger.{is_open, KeepsReserves};
ghost use Rattle.clearing_model.specs.Certificate.{AreFractionFills};
ghost use Rattle.form.specs.Limits.{IsWithinLimits};
ghost use Rattle.frac.specs.Value.{fraction_of};
ghost use Rattle.order_book.specs.Book.{batch_of, is_trading, market_of};
ghost use Rattle.limits.specs.declared.TheConstants.{MAX_BATCHES};
ghost use Rattle.settlement.specs.Premium.{IsOrderFill};
ghost use Rattle.exchange_core.specs.ExchangeState.{state_of};
ghost use Rattle.exchange_core.specs.Kept.{IsPayable, AreJoined, ArePositionsKept};
ghost use Rattle.exchange_core.specs.Premiums.{premiums_of, premium_entries};
ghost use Rattle.exchange_core.specs.Step.{cleared_with};

use crate::failure::Failure;
use crate::new_positions::add_positions;
use crate::reserve::release_all;
use cash_ledger::{Cause, Ledger};
use cert_check::Fills;
use exact_num::Exact;
use form::{Batch, Order, Side};
use frac::Frac128;
use order_book::Book;
use settlement::{Positions, premium};

// Moves the premium of a fill, for which the ledger has room. A fill of 0 has none.
fn pay(ledger: &mut Ledger, batch: u32, order: &Order, fill: &Frac128)
    requires payable { IsPayable ledger.old.accounts order.now }
    requires house { is_open ledger.old.accounts 0 ≡ true }
    requires fill { IsOrderFill (fraction_of fill.now) }
    requires room { 2 ≤ ledger.old.spare }
    ensures entries { ledger.new.entries
        ≡ ledger.old.entries ++ premiums_of batch order.now (fraction_of fill.now) }
    ensures accounts { ledger.new.accounts ≡ ledger.old.accounts }
    ensures spare { ledger.old.spare ≤ ledger.new.spare + 2 }
    ensures reserves { KeepsReserves ledger.old ledger.new }
{
    if fill.sign() <= 0 {
        return;
    }
    let amount = premium(&order.side, fill, order.price);
    let cause = Cause::Premium { batch };
    match order.side {
        Side::Buy => ledger.move_amount(order.account, 0, amount, cause),
        Side::Sell => ledger.move_amount(0, order.account, amount, cause),
    }
}

// Moves the premiums of a batch, in order of number.
fn pay_all(ledger: &mut Ledger, batch: u32, orders: &[Order], fills: &[Frac128])
    requires payable { All (IsPayable ledger.old.accounts) orders.now }
    requires house { is_open ledger.old.accounts 0 ≡ true }
    requires size { length fills.now ≡ length orders.now }
    requires fills { All (λ fill. IsOrderFill (fraction_of fill)) fills.now }
    requires room { 2 * length orders.now ≤ ledger.old.spare }
    ensures entries { ledger.new.entries
        ≡ ledger.old.entries ++ premium_entries batch orders.now fills.now }
    ensures accounts { ledger.new.accounts ≡ ledger.old.accounts }
    ensures reserves { KeepsReserves ledger.old ledger.new }
{
    for (place, order) in orders.iter().enumerate() {
        pay(ledger, batch, order, &fills[place]);
    }
}

// Clears the live orders of a market with these fills: moves their premiums, gives free what the
// orders reserve, and the fills are positions from then on. Answers the number of the batch.
// Whatever found the fills, they are charged here. It fails for want of memory alone.
pub(crate) fn charge_fills(
    ledger: &mut Ledger,
    book: &mut Book,
    positions: &mut Positions,
    market: u32,
    batch: &Batch,
    fills: &Fills,
) -> Result<u32, Failure>
    requires joined { AreJoined ledger.old book.old }
    requires positions { ArePositionsKept
        ledger.old.accounts book.old.markets positions.old.list }
    requires open { is_trading book.old market ≡ true }
    requires few { book.old.finished < MAX_BATCHES }
    requires batch { option_map batch_of (market_of book.old market) ≡ Some batch.now }
    requires within { IsWithinLimits batch.now }
    requires fills { AreFractionFills batch.now.orders (map fraction_of fills.now) }
    ensures number { IfOk result (λ number. number ≡ book.old.finished + 1) }
    ensures cleared { OnOk result (state_of ledger.new book.new positions.new.list
        ≡ cleared_with (state_of ledger.old book.old positions.old.list) market fills.now) }
    ensures joined { AreJoined ledger.new book.new }
    ensures positions { ArePositionsKept
        ledger.new.accounts book.new.markets positions.new.list }
    ensures err { OnErr result (state_of ledger.new book.new positions.new.list
        ≡ state_of ledger.old book.old positions.old.list) }
{
    let orders = batch.orders.as_slice();
    ledger.room(2 * orders.len())?;
    positions.room(orders.len())?;
    let number = book.finish_batch(market);
    pay_all(ledger, number, orders, fills.as_slice());
    add_positions(positions, market, number, orders, fills.as_slice());
    release_all(ledger, orders);
    Ok(number)
}
