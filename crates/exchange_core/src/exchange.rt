ghost use Rattle.std.specs.Prelude.{◌≡◌, ◌+◌, ◌++◌, ◌≤◌, ◌<◌, ◌^◌, length, map, pos, IfOk, IfSome, IsSome, OnErr, OnOk, Some, true};
ghost use Rattle.std.specs.Option.{option_map};
ghost use Rattle.cash_ledger.specs.Entries.{AreBounded};
ghost use Rattle.cash_ledger.specs.Ledger.{balance_in, if_open};
ghost use Rattle.cash_ledger.specs.Refusals.{account_refusals};
ghost use Rattle.clearing.specs.Outcome.{IsMarked, outcome_of};
ghost use Rattle.clearing_model.specs.Certificate.{AreFractionFills};
ghost use Rattle.frac.specs.Value.{fraction_of};
ghost use Rattle.form.specs.Limits.{IsWithinLimits};
ghost use Rattle.order_book.specs.Book.{batch_of, info_in, is_trading, market_of, with_number};
ghost use Rattle.order_book.specs.Markets.{holder_of};
ghost use Rattle.order_book.specs.Refusals.{batch_refusals, close_refusals, live_refusals, unless_memory as unless_no_memory};
ghost use Rattle.order_book.specs.Within.{IsNewOrderWithin};
ghost use Rattle.limits.specs.declared.TheConstants.{MAX_BATCHES};
ghost use Rattle.lists.specs.Refusals.{TellsFirst};
ghost use Rattle.command_text.specs.declared.command.Command.TheVariants as Command;
ghost use Rattle.exchange_core.specs.Covered.{IfCleared, IsMarkedFor};
ghost use Rattle.exchange_core.specs.ExchangeState.{empty_exchange};
ghost use Rattle.exchange_core.specs.Kept.{IsKept};
ghost use Rattle.exchange_core.specs.Failures.{unless_memory};
ghost use Rattle.exchange_core.specs.Refusals.{by_book, by_ledger, refusals, place_refusals};
ghost use Rattle.exchange_core.specs.Held.{market_numbers, markets_of, orders_of, positions_of, underlyings_in};
ghost use Rattle.exchange_core.specs.Reserves.{reserve_in};
ghost use Rattle.exchange_core.specs.Step.{step, effect, place_effect, clear_effect, cleared_with, Does};
ghost use Rattle.exchange_core.specs.Orders.{order_of};
ghost use Rattle.command_text.specs.Within.{IsWithin, IsAccount, IsAmount, IsBudget};
ghost use Rattle.form.specs.Between.{Between};
ghost use Rattle.form.specs.declared.limits.TheConstants.{MAX_ORDERS, MAX_UNDERLYINGS};

use crate::checks::{check_cancel, check_clear, check_place, check_settlement, check_withdrawal};
use crate::clear::charge_fills;
use crate::failure::{Failure, refusal_of};
use crate::held::{in_order, market_numbers, orders_of};
use crate::place::{cancel, place};
use crate::settle::settle;
use crate::trade::order_of;
use crate::{Refusal, Reply};
use cash_ledger::{Ledger, LedgerRefusal};
use cert_check::{Fills, Outcome};
use command_text::Command;
use form::{Batch, Order};
use order_book::{Book, BookRefusal, MarketInfo, NewOrder};
use settlement::{Position, Positions};
use std::alloc::{AllocError, Global};
use std::collections::BTreeSet;
use std::marker::Model;

/// The accounts with their balances and reserves, the markets with their live orders, and the
/// positions.
#[derive(Drop)]
pub struct Exchange {
    alloc: Global,
    ledger: Ledger,
    book: Book,
    positions: Positions,
}

impl Model for Exchange {
    ghost use Rattle.exchange_core.specs.ExchangeState.{ExchangeState, state_of};
    ghost use Rattle.exchange_core.specs.Kept.{AreJoined, ArePositionsKept};

    ghost Value = { ExchangeState };

    ghost view = { λ s. state_of s.ledger s.book s.positions.list };

    ghost invariant = { λ s. AreJoined s.ledger s.book
        × ArePositionsKept s.ledger.accounts s.book.markets s.positions.list };
}

impl Exchange {
    /// No account but the house, no entry, no market, no order and no position.
    pub fn new(alloc: Global) -> Self
        ensures { result ≡ empty_exchange }
    {
        Exchange {
            alloc,
            ledger: Ledger::new(alloc),
            book: Book::new(alloc),
            positions: Positions::new(alloc),
        }
    }

    /// The balance of an open account, in ticks, or of the house, which is account 0.
    ///
    /// `None` where the account is not open.
    pub fn balance(&self, account: u32) -> Option<i128>
        ensures value { result ≡ balance_in self.now.accounts self.now.entries account }
        ensures bounded { AreBounded self.now.entries }
        ensures few { length self.now.entries < 2 ^ 64 }
        ensures kept { IsKept self.now }
    {
        self.ledger.balance(account)
    }

    /// What is reserved of the balance of an open account for its live buys, in ticks. `None` where
    /// the account is not open. Takes no memory.
    pub fn reserved(&self, account: u32) -> Option<i128>
        ensures { result
            ≡ if_open self.now.accounts account (pos (reserve_in self.now account)) }
    {
        self.ledger.reserved(account)
    }

    /// What is told of a market that is there. Takes no memory.
    pub fn info(&self, market: u32) -> Option<MarketInfo>
        ensures info { result ≡ info_in self.now.book market }
        ensures underlyings { IfSome result (λ info.
            (1 ≤ info.underlyings) × (info.underlyings ≤ MAX_UNDERLYINGS)) }
        ensures live { IfSome result (λ info. info.live ≤ MAX_ORDERS) }
        ensures kept { IsKept self.now }
    {
        self.book.info(market)
    }

    /// The market with a live order of the number. `None` where no live order has the number. Takes
    /// no memory.
    pub fn market_of_order(&self, order: u64) -> Option<u32>
        ensures { result ≡ holder_of order self.now.book.markets }
    {
        self.book.market_of_order(order)
    }

    /// Looks whether an order may be placed. The refusals are those of the command that places it.
    /// Takes no memory.
    pub fn check_order(&self, order: &NewOrder) -> Result<(), Refusal>
        requires { IsNewOrderWithin order.now }
        ensures { TellsFirst (λ r. Some r) result (place_refusals self.now order.now) }
    {
        refusal_of(check_place(&self.ledger, &self.book, order))
    }

    /// Looks whether an account may cancel an order. The refusals are those of the command
    /// `cancel`. Takes no memory.
    pub fn check_cancel(&self, account: u32, order: u64) -> Result<(), Refusal>
        ensures { TellsFirst (λ r. Some r) result (refusals self.now (Command.Cancel account order)) }
    {
        refusal_of(check_cancel(&self.ledger, &self.book, account, order))
    }

    /// Looks whether an account may withdraw an amount. The refusals are those of the command
    /// `withdraw`. Takes no memory.
    pub fn check_withdrawal(&self, account: u32, amount: u64) -> Result<(), Refusal>
        ensures { TellsFirst (λ r. Some r) result
            (refusals self.now (Command.Withdraw account amount)) }
    {
        refusal_of(check_withdrawal(&self.ledger, account, amount))
    }

    /// Looks whether a market may be cleared. The refusals are those of the command `clear`. Takes
    /// no memory.
    pub fn check_clear(&self, market: u32) -> Result<(), Refusal>
        ensures { TellsFirst (λ r. Some r) result (by_book (batch_refusals self.now.book market)) }
    {
        refusal_of(check_clear(&self.book, market))
    }

    /// Looks whether a market may be settled at this number of prices. The refusals are those of
    /// the command `settle`. Takes no memory.
    pub fn check_settlement(&self, market: u32, count: u8) -> Result<(), Refusal>
        ensures { TellsFirst (λ r. Some r) result
            (by_book (close_refusals self.now.book market count)) }
    {
        refusal_of(check_settlement(&self.book, market, count))
    }

    /// The live orders of a market as a batch, or why there is none.
    pub fn live(&self, market: u32) -> Result<Batch, BookRefusal>
        ensures refused { TellsFirst unless_no_memory result
            (batch_refusals self.now.book market) }
        ensures batch { IfOk result (λ batch.
            option_map batch_of (market_of self.now.book market) ≡ Some batch) }
        ensures within { IfOk result IsWithinLimits }
        ensures may_finish { OnOk result ((is_trading self.now.book market ≡ true)
            × (self.now.book.finished < MAX_BATCHES)) }
    {
        self.book.batch(market)
    }

    /// The live orders of a market that is not settled, in rising number, as a batch, whether or
    /// not one batch more may be finished. The first of these: `NoMarket` where no market has the
    /// number; `Settled` where it is settled.
    pub fn orders(&self, market: u32) -> Result<Batch, Failure>
        ensures refused { TellsFirst unless_memory result
            (by_book (live_refusals self.now.book market)) }
        ensures batch { IfOk result (λ batch.
            option_map batch_of (market_of self.now.book market) ≡ Some batch) }
        ensures within { IfOk result IsWithinLimits }
        ensures trading { OnOk result (is_trading self.now.book market ≡ true) }
        ensures kept { IsKept self.now }
    {
        Ok(self.book.live(market)?)
    }

    /// The live orders of a market as a batch, and what the reference run clears of it within a
    /// work budget, in units. Nothing is charged. The refusals are those of the command `clear`.
    pub fn reference(&self, market: u32, budget: u32) -> Result<(Batch, Outcome), Failure>
        requires { IsBudget budget }
        ensures refused { TellsFirst unless_memory result
            (refusals self.now (Command.Clear market budget)) }
        ensures batch { IfOk result (λ r.
            option_map batch_of (market_of self.now.book market) ≡ Some r.0) }
        ensures within { IfOk result (λ r. IsWithinLimits r.0) }
        ensures may_finish { OnOk result ((is_trading self.now.book market ≡ true)
            × (self.now.book.finished < MAX_BATCHES)) }
        ensures outcome { IfOk result (λ r. r.1 ≡ outcome_of r.0 budget) }
        ensures marked { IfOk result (λ r. IsMarked r.0 budget r.1) }
        ensures fills { IfOk result (λ r.
            AreFractionFills r.0.orders (map fraction_of r.1.fills)) }
    {
        let batch = self.live(market)?;
        let outcome = clearing::clear(self.alloc, &batch, budget)?;
        Ok((batch, outcome))
    }

    /// Clears the live orders of a market with these fills, each from 0 to the order's quantity:
    /// moves their premiums, gives free what the orders reserve, and keeps the fills as positions.
    /// Answers the number of the batch. A batch is charged here whatever found its fills, and so is
    /// one that a command clears. The batch is what `reference` answers, and nothing has changed
    /// since. The only error is want of memory, and then the exchange is as it was.
    pub fn clear_as(&mut self, market: u32, batch: &Batch, fills: &Fills) -> Result<u32, AllocError>
        requires open { is_trading self.old.book market ≡ true }
        requires few { self.old.book.finished < MAX_BATCHES }
        requires batch { option_map batch_of (market_of self.old.book market) ≡ Some batch.now }
        requires within { IsWithinLimits batch.now }
        requires fills { AreFractionFills batch.now.orders (map fraction_of fills.now) }
        ensures number { IfOk result (λ number. number ≡ self.old.book.finished + 1) }
        ensures cleared { OnOk result (self.new ≡ cleared_with self.old market fills.now) }
        ensures err { OnErr result (self.new ≡ self.old) }
    {
        match charge_fills(
            &mut self.ledger,
            &mut self.book,
            &mut self.positions,
            market,
            batch,
            fills,
        ) {
            Ok(number) => Ok(number),
            Err(_) => Err(AllocError),
        }
    }

    /// The positions that an account has in a market, in the order in which they were added.
    pub fn positions_of(&self, account: u32, market: u32) -> Result<Vec<Position>, AllocError>
        ensures positions { IfOk result (λ positions.
            positions.items ≡ positions_of account market self.now.positions) }
        ensures kept { IsKept self.now }
    {
        let mut held = Vec::new(self.alloc);
        for position in self.positions.as_slice() {
            if position.account == account && position.market == market {
                held.push(*position)?;
            }
        }
        Ok(held)
    }

    /// The positions that an open account has in a market that is not settled, in the order in
    /// which they were added. The first of these: `NoMarket` where no market has the number;
    /// `Settled` where it is settled; `NoAccount` where the account is not open.
    pub fn positions(&self, account: u32, market: u32) -> Result<Vec<Position>, Failure>
        ensures refused { TellsFirst unless_memory result
            (by_book (live_refusals self.now.book market)
            ++ by_ledger (account_refusals self.now.accounts account)) }
        ensures positions { IfOk result (λ positions.
            positions.items ≡ positions_of account market self.now.positions) }
    {
        self.book.check_live(market)?;
        self.ledger.check_account(account)?;
        Ok(self.positions_of(account, market)?)
    }

    /// The markets in which an account has positions, in rising number.
    pub fn held_markets(&self, account: u32) -> Result<Vec<u32>, AllocError>
        ensures markets { IfOk result (λ markets.
            markets.items ≡ markets_of account self.now.positions) }
    {
        let mut markets = BTreeSet::new(self.alloc);
        for position in self.positions.as_slice() {
            if position.account == account {
                markets.insert(position.market)?;
            }
        }
        in_order(self.alloc, &markets)
    }

    /// The live orders of an account in a market, in rising number.
    pub fn orders_of(&self, account: u32, market: u32) -> Result<Vec<Order>, AllocError>
        ensures orders { IfOk result (λ orders.
            orders.items ≡ orders_of account market self.now.book) }
        ensures kept { IsKept self.now }
    {
        orders_of(self.alloc, &self.book, account, market)
    }

    /// The numbers of all markets, in rising order.
    pub fn markets(&self) -> Result<Vec<u32>, AllocError>
        ensures { IfOk result (λ numbers. numbers.items ≡ market_numbers self.now.book) }
    {
        market_numbers(self.alloc, &self.book)
    }

    /// The number of underlyings of a market; 1 where there is no such market, in which no account
    /// has anything. Takes no memory.
    pub fn underlyings_in(&self, market: u32) -> u8
        ensures value { result ≡ underlyings_in self.now.book market }
        ensures some { 1 ≤ result }
        ensures few { result ≤ MAX_UNDERLYINGS }
    {
        match self.info(market) {
            Some(info) => info.underlyings,
            None => 1,
        }
    }

    /// The order as it is live if it is placed now, under the next number. Takes no memory.
    pub fn as_live(&self, order: &NewOrder) -> Order
        ensures { result ≡ with_number (self.now.book.accepted + 1) order.now }
    {
        self.book.as_live(order)
    }

    fn open(&mut self, account: u32) -> Result<Reply, Failure>
        requires { IsAccount account }
        ensures refused { TellsFirst unless_memory result
            (refusals self.old (Command.Open account)) }
        ensures ok { Does result self.new (effect self.old (Command.Open account)) }
        ensures err { OnErr result (self.new ≡ self.old) }
    {
        self.ledger.open(account)?;
        Ok(Reply::Opened { account })
    }

    fn deposit(&mut self, account: u32, amount: u64) -> Result<Reply, Failure>
        requires { IsAmount amount }
        ensures refused { TellsFirst unless_memory result
            (refusals self.old (Command.Deposit account amount)) }
        ensures ok { Does result self.new (effect self.old (Command.Deposit account amount)) }
        ensures err { OnErr result (self.new ≡ self.old) }
    {
        let balance = self.ledger.deposit(account, amount)?;
        Ok(Reply::Deposited { account, balance })
    }

    fn withdraw(&mut self, account: u32, amount: u64) -> Result<Reply, Failure>
        requires { IsAmount amount }
        ensures refused { TellsFirst unless_memory result
            (refusals self.old (Command.Withdraw account amount)) }
        ensures ok { Does result self.new (effect self.old (Command.Withdraw account amount)) }
        ensures err { OnErr result (self.new ≡ self.old) }
    {
        let balance = self.ledger.withdraw(account, amount)?;
        Ok(Reply::Withdrawn { account, balance })
    }

    fn list(&mut self, market: u32, underlyings: u8) -> Result<Reply, Failure>
        requires { Between 1 MAX_UNDERLYINGS underlyings }
        ensures refused { TellsFirst unless_memory result
            (refusals self.old (Command.Market market underlyings)) }
        ensures ok { Does result self.new (effect self.old (Command.Market market underlyings)) }
        ensures err { OnErr result (self.new ≡ self.old) }
    {
        self.book.market(market, underlyings)?;
        Ok(Reply::Listed {
            market,
            underlyings,
        })
    }

    fn place(&mut self, order: &NewOrder) -> Result<Reply, Failure>
        requires { IsNewOrderWithin order.now }
        ensures refused { TellsFirst unless_memory result (place_refusals self.old order.now) }
        ensures ok { Does result self.new (place_effect self.old order.now) }
        ensures err { OnErr result (self.new ≡ self.old) }
    {
        self.check_order(order)?;
        let order = place(&mut self.ledger, &mut self.book, order)?;
        Ok(Reply::Placed { order })
    }

    // Places the order of a trade, or that for a bundle. An order is large, and a function clears
    // the places of its values when it is entered: here no other command pays for one.
    fn order(&mut self, command: &Command) -> Result<Reply, Failure>
        requires within { IsWithin command.now }
        requires order { IsSome (order_of command.now) }
        ensures refused { TellsFirst unless_memory result (refusals self.old command.now) }
        ensures ok { Does result self.new (effect self.old command.now) }
        ensures err { OnErr result (self.new ≡ self.old) }
    {
        let order = order_of(command).unwrap();
        self.place(&order)
    }

    fn cancel(&mut self, account: u32, order: u64) -> Result<Reply, Failure>
        ensures refused { TellsFirst unless_memory result
            (refusals self.old (Command.Cancel account order)) }
        ensures ok { Does result self.new (effect self.old (Command.Cancel account order)) }
        ensures err { OnErr result (self.new ≡ self.old) }
    {
        cancel(&mut self.ledger, &mut self.book, account, order)?;
        Ok(Reply::Cancelled { order })
    }

    fn clear(&mut self, market: u32, budget: u32) -> Result<Reply, Failure>
        requires { IsBudget budget }
        ensures refused { TellsFirst unless_memory result
            (refusals self.old (Command.Clear market budget)) }
        ensures ok { Does result self.new (clear_effect self.old market budget) }
        ensures marked { IfOk result (IfCleared (λ batch outcome. IsMarked batch budget outcome)) }
        ensures err { OnErr result (self.new ≡ self.old) }
    {
        let (batch, outcome) = self.reference(market, budget)?;
        let number = self.clear_as(market, &batch, &outcome.fills)?;
        Ok(Reply::Cleared {
            number,
            market,
            batch,
            outcome,
        })
    }

    fn settle(&mut self, market: u32, count: u8, prices: &[u32; 8]) -> Result<Reply, Failure>
        requires { IsWithin (Command.Settle market count prices.now) }
        ensures refused { TellsFirst unless_memory result
            (refusals self.old (Command.Settle market count prices.now)) }
        ensures ok { Does result self.new
            (effect self.old (Command.Settle market count prices.now)) }
        ensures err { OnErr result (self.new ≡ self.old) }
    {
        settle(
            &mut self.ledger,
            &mut self.book,
            &mut self.positions,
            market,
            &prices[..count as usize],
        )
    }

    fn tell_balance(&self, account: u32) -> Result<Reply, Failure>
        ensures refused { TellsFirst unless_memory result
            (refusals self.now (Command.Balance account)) }
        ensures ok { Does result self.now (effect self.now (Command.Balance account)) }
    {
        let balance = self
            .ledger
            .balance(account)
            .ok_or(LedgerRefusal::NoAccount)?;
        let reserved = self.ledger.reserved(account).unwrap();
        Ok(Reply::Balance {
            account,
            balance,
            reserved,
        })
    }

    // Carries out a command, or says why it has no effect.
    fn carry_out(&mut self, command: &Command) -> Result<Reply, Failure>
        requires { IsWithin command.now }
        ensures refused { TellsFirst unless_memory result (refusals self.old command.now) }
        ensures ok { Does result self.new (effect self.old command.now) }
        ensures marked { IfOk result (IsMarkedFor command.now) }
        ensures err { OnErr result (self.new ≡ self.old) }
    {
        match command {
            Command::Open { account } => self.open(*account),
            Command::Deposit { account, amount } => self.deposit(*account, *amount),
            Command::Withdraw { account, amount } => self.withdraw(*account, *amount),
            Command::Market {
                market,
                underlyings,
            } => self.list(*market, *underlyings),
            Command::Trade { .. } | Command::Bundle { .. } => self.order(command),
            Command::Cancel { account, order } => self.cancel(*account, *order),
            Command::Clear { market, budget } => self.clear(*market, *budget),
            Command::Balance { account } => self.tell_balance(*account),
            Command::Settle {
                market,
                count,
                prices,
            } => self.settle(*market, *count, prices),
        }
    }

    /// Carries out one command: one step of the plain exchange, and its reply.
    ///
    /// A command that is refused, and one that finds no memory, has changed nothing.
    pub fn step(&mut self, command: &Command) -> Result<Reply, AllocError>
        requires { IsWithin command.now }
        ensures ok { Does result self.new (step self.old command.now) }

        // A batch lacks the mark optimal only where the run stops, and says where.
        ensures marked { IfOk result (IsMarkedFor command.now) }
        ensures err { OnErr result (self.new ≡ self.old) }
    {
        match self.carry_out(command) {
            Ok(reply) => Ok(reply),
            Err(Failure::Refused(refusal)) => Ok(refusal.reply()),
            Err(Failure::Memory) => Err(AllocError),
        }
    }
}
