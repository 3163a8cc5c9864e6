// How a market is settled: what moves for its positions, and what its live orders leave.
ghost use Rattle.std.specs.Prelude.{◌≡◌, ℕ, ◌+◌, ◌*◌, ◌≤◌, ◌++◌, true, length, OnErr};
ghost use Rattle.std.specs.List.{All};
ghost use Rattle.cash_ledger.specs.Ledger.{is_open, reserved_of, KeepsReserves};
ghost use Rattle.order_book.specs.Book.{live_of};
ghost use Rattle.order_book.specs.Refusals.{close_refusals};
ghost use Rattle.lists.specs.Refusals.{TellsFirst};
ghost use Rattle.exchange_core.specs.ExchangeState.{state_of};
ghost use Rattle.exchange_core.specs.Failures.{unless_memory};
ghost use Rattle.exchange_core.specs.Kept.{AreJoined, ArePositionsKept, IsPaidOut, IsPayable};
ghost use Rattle.exchange_core.specs.Payoffs.{payoff_of, payoff_entries};
ghost use Rattle.exchange_core.specs.Refusals.{by_book};
ghost use Rattle.exchange_core.specs.Reserves.{reserve_of, FreesReserves};
ghost use Rattle.exchange_core.specs.Step.{settle_effect, Does};
ghost use Rattle.limits.specs.declared.TheConstants.{MAX_SETTLEMENT_PRICE};

use crate::Reply;
use crate::failure::Failure;
use crate::reserve::release_cost;
use cash_ledger::{Cause, Ledger};
use form::Side;
use order_book::Book;
use settlement::{PaidOut, Payouts, Positions};

// Moves one payout, for which the ledger has room.
fn pay_out(ledger: &mut Ledger, paid: &PaidOut)
    requires payable { IsPaidOut ledger.old.accounts paid.now }
    requires house { is_open ledger.old.accounts 0 ≡ true }
    requires room { 2 ≤ ledger.old.spare }
    ensures entries { ledger.new.entries ≡ ledger.old.entries ++ payoff_of paid.now }
    ensures accounts { ledger.new.accounts ≡ ledger.old.accounts }
    ensures spare { ledger.old.spare ≤ ledger.new.spare + 2 }
    ensures reserves { KeepsReserves ledger.old ledger.new }
{
    let cause = Cause::Payoff { batch: paid.batch };
    match paid.side {
        Side::Buy => ledger.move_amount(0, paid.account, paid.amount, cause),
        Side::Sell => ledger.move_amount(paid.account, 0, paid.amount, cause),
    }
}

// Moves payouts, in their order.
fn pay_out_all(ledger: &mut Ledger, payouts: &[PaidOut])
    requires payable { All (IsPaidOut ledger.old.accounts) payouts.now }
    requires house { is_open ledger.old.accounts 0 ≡ true }
    requires room { 2 * length payouts.now ≤ ledger.old.spare }
    ensures entries { ledger.new.entries ≡ ledger.old.entries ++ payoff_entries payouts.now }
    ensures accounts { ledger.new.accounts ≡ ledger.old.accounts }
    ensures reserves { KeepsReserves ledger.old ledger.new }
{
    for paid in payouts {
        pay_out(ledger, paid);
    }
}

// Gives free what the live orders of a market reserve.
fn release_live(ledger: &mut Ledger, book: &Book, market: u32)
    requires payable { All (IsPayable ledger.old.accounts) (live_of book.now market) }
    requires reserved { (q : ℕ)
        → reserve_of q (live_of book.now market) ≤ reserved_of ledger.old q }
    ensures reserves { FreesReserves ledger.old ledger.new (live_of book.now market) }
    ensures accounts { ledger.new.accounts ≡ ledger.old.accounts }
    ensures entries { ledger.new.entries ≡ ledger.old.entries }
{
    let live = book.info(market).map_or(0, |found| found.live);
    for place in 0..live {
        release_cost(ledger, &book.live_order(market, place).unwrap());
    }
}

// Settles a market for good at these prices: its positions are paid out and taken out, its live
// orders lapse, and what they reserve is free again.
pub(crate) fn settle(
    ledger: &mut Ledger,
    book: &mut Book,
    positions: &mut Positions,
    market: u32,
    prices: &[u32],
) -> Result<Reply, Failure>
    requires joined { AreJoined ledger.old book.old }
    requires positions { ArePositionsKept
        ledger.old.accounts book.old.markets positions.old.list }
    requires few { length prices.now ≤ 8 }
    requires within { All (λ p. p ≤ MAX_SETTLEMENT_PRICE) prices.now }
    ensures refused { TellsFirst unless_memory result
        (by_book (close_refusals book.old market (length prices.now))) }
    ensures ok { Does result (state_of ledger.new book.new positions.new.list)
        (settle_effect (state_of ledger.old book.old positions.old.list) market prices.now) }
    ensures joined { AreJoined ledger.new book.new }
    ensures positions { ArePositionsKept
        ledger.new.accounts book.new.markets positions.new.list }
    ensures err { OnErr result (state_of ledger.new book.new positions.new.list
        ≡ state_of ledger.old book.old positions.old.list) }
{
    book.check_close(market, prices.len() as u8)?;
    let payouts = positions.payouts(market, prices)?;
    ledger.room(2 * payouts.len())?;
    pay_out_all(ledger, &payouts);
    release_live(ledger, book, market);
    positions.drop_market(market);
    let lapsed = book.close(market);
    Ok(Reply::Settled {
        market,
        lapsed,
        payouts: Payouts::from_vec(payouts),
    })
}
