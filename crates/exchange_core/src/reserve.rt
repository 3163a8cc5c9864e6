// What is reserved for live orders: a buy's quantity times its price, and nothing for a sell.
ghost use Rattle.std.specs.Prelude.{◌≡◌, ◌*◌, ◌≤◌, ◌≢◌, ℕ, true, Err};
ghost use Rattle.std.specs.List.{All};
ghost use Rattle.limits.specs.declared.TheConstants.{MAX_RESERVED};
ghost use Rattle.cash_ledger.specs.declared.ledger.LedgerRefusal.TheVariants as LedgerRefusal;
ghost use Rattle.cash_ledger.specs.Ledger.{is_open, reserved_of};
ghost use Rattle.cash_ledger.specs.Refusals.{unless_memory};
ghost use Rattle.form.specs.declared.limits.TheConstants.{MAX_PRICE, MAX_QUANTITY};
ghost use Rattle.exchange_core.specs.Kept.{IsPayable};
ghost use Rattle.exchange_core.specs.Refusals.{order_cost_refusals};
ghost use Rattle.exchange_core.specs.Reserves.{cost_of, cost_of_new, reserve_of, AddsReserve, FreesReserve, FreesReserves};
ghost use Rattle.lists.specs.Refusals.{TellsFirst};

use cash_ledger::{Ledger, LedgerRefusal};
use form::{Order, Side};
use order_book::NewOrder;

// What an order costs at its limit price, in ticks.
fn cost(quantity: u32, price: u64) -> u64
    requires quantity { quantity ≤ MAX_QUANTITY }
    requires price { price ≤ MAX_PRICE }
    ensures amount { result ≡ quantity * price }
    ensures small { result ≤ 1000000000000000000 }
{
    u64::from(quantity) * price
}

// Looks whether the account of an order is open, and may pay what a buy costs.
pub(crate) fn check_cost(ledger: &Ledger, order: &NewOrder) -> Result<(), LedgerRefusal>
    requires quantity { order.now.quantity ≤ MAX_QUANTITY }
    requires price { order.now.price ≤ MAX_PRICE }
    ensures refused { TellsFirst unless_memory result (order_cost_refusals ledger.now order.now) }
    ensures no_memory { result ≢ Err LedgerRefusal.Memory }
{
    match order.side {
        Side::Buy => ledger.check_payment(order.account, cost(order.quantity, order.price)),
        Side::Sell => ledger.check_account(order.account),
    }
}

// Reserves what an order of an open account costs.
pub(crate) fn reserve_cost(ledger: &mut Ledger, order: &NewOrder)
    requires open { is_open ledger.old.accounts order.now.account ≡ true }
    requires quantity { order.now.quantity ≤ MAX_QUANTITY }
    requires price { order.now.price ≤ MAX_PRICE }
    requires reserved { reserved_of ledger.old order.now.account ≤ MAX_RESERVED }
    ensures reserves { AddsReserve ledger.old ledger.new
        order.now.account (cost_of_new order.now) }
    ensures accounts { ledger.new.accounts ≡ ledger.old.accounts }
    ensures entries { ledger.new.entries ≡ ledger.old.entries }
{
    if order.side == Side::Buy {
        ledger.reserve(order.account, cost(order.quantity, order.price));
    }
}

// Gives free what an order reserves.
pub(crate) fn release_cost(ledger: &mut Ledger, order: &Order)
    requires payable { IsPayable ledger.old.accounts order.now }
    requires reserved { cost_of order.now ≤ reserved_of ledger.old order.now.account }
    ensures reserves { FreesReserve ledger.old ledger.new order.now }
    ensures accounts { ledger.new.accounts ≡ ledger.old.accounts }
    ensures entries { ledger.new.entries ≡ ledger.old.entries }
{
    if order.side == Side::Buy {
        ledger.release(order.account, cost(order.quantity, order.price));
    }
}

// Gives free what these orders reserve.
pub(crate) fn release_all(ledger: &mut Ledger, orders: &[Order])
    requires payable { All (IsPayable ledger.old.accounts) orders.now }
    requires reserved { (q : ℕ) → reserve_of q orders.now ≤ reserved_of ledger.old q }
    ensures reserves { FreesReserves ledger.old ledger.new orders.now }
    ensures accounts { ledger.new.accounts ≡ ledger.old.accounts }
    ensures entries { ledger.new.entries ≡ ledger.old.entries }
{
    for order in orders {
        release_cost(ledger, order);
    }
}
