// Which markets are closed, and what that keeps from them.
ghost use Rattle.std.specs.Prelude.{◌≡◌, [], ◌&&◌, length, is_none, Some, IfOk, OnOk, OnErr};
ghost use Rattle.command_text.specs.Within.{IsWithin};
ghost use Rattle.command_text.specs.declared.command.Command.TheVariants as Command;
ghost use Rattle.lists.specs.Refusals.{TellsFirst, first_of, refusal_in};
ghost use Rattle.order_book.specs.Book.{live_of};
ghost use Rattle.order_book.specs.Within.{IsNewOrderWithin};
ghost use Rattle.exchange_core.specs.Refusals.{place_refusals};
ghost use Rattle.auction_phases.specs.Phases.{after_end, bars, ended_in, is_closed, unless_refused, with_closed, with_open};
ghost use Rattle.auction_phases.specs.Refusals.{close_refusals, reopen_refusals, trading_refusals, unless_memory};

use crate::refusal::{PhaseFailure, PhaseRefusal};
use exchange_core::{Command, Exchange, NewOrder, Refusal, order_of};
use std::alloc::Global;
use std::marker::Model;

/// The closed markets, in the order in which they were closed.
#[derive(Drop)]
pub struct Phases {
    closed: Vec<u32>,
}

impl Model for Phases {
    ghost use Rattle.std.specs.Prelude.{List, ℕ};

    ghost Value = { List ℕ };

    ghost view = { λ s. s.closed.items };
}

// Answers how many live orders a market has that is there and not settled.
fn trading(exchange: &Exchange, market: u32) -> Result<u32, PhaseRefusal>
    ensures refused { TellsFirst (λ refusal. Some refusal) result
        (trading_refusals exchange.now market) }
    ensures orders { IfOk result (λ orders. orders ≡ length (live_of exchange.now.book market)) }
{
    let Some(info) = exchange.info(market) else {
        return Err(PhaseRefusal::Exchange(Refusal::NoMarket));
    };
    if info.settled {
        return Err(PhaseRefusal::Exchange(Refusal::Settled));
    }
    Ok(info.live)
}

// The market, where nothing is refused.
fn unless_refused(checked: Result<(), Refusal>, market: u32) -> Option<u32>
    ensures { result ≡ unless_refused (refusal_in (λ refusal. Some refusal) checked) market }
{
    match checked {
        Ok(()) => Some(market),
        Err(_) => None,
    }
}

/// The market that a command clears or settles, where the exchange accepts it. Takes no memory.
pub fn ended_in(exchange: &Exchange, command: &Command) -> Option<u32>
    ensures { result ≡ ended_in exchange.now command.now }
{
    match command {
        Command::Clear { market, .. } => unless_refused(exchange.check_clear(*market), *market),
        Command::Settle { market, count, .. } => {
            unless_refused(exchange.check_settlement(*market, *count), *market)
        }
        _ => None,
    }
}

impl Phases {
    /// No market is closed.
    pub fn new(alloc: Global) -> Self
        ensures { result ≡ [] }
    {
        Phases {
            closed: Vec::new(alloc),
        }
    }

    /// Whether a market is closed.
    pub fn is_closed(&self, market: u32) -> bool
        ensures { result ≡ is_closed self.now market }
    {
        self.closed.contains(&market)
    }

    /// Closes a market, and answers how many live orders it has.
    ///
    /// The first of these: the exchange's `NoMarket` where no market has the number, and its
    /// `Settled` where it is settled; `Closed` where it is closed already.
    pub fn close(&mut self, exchange: &Exchange, market: u32) -> Result<u32, PhaseFailure>
        ensures refused { TellsFirst unless_memory result
            (close_refusals exchange.now self.old market) }
        ensures orders { IfOk result (λ orders.
            orders ≡ length (live_of exchange.now.book market)) }
        ensures ok { OnOk result (self.new ≡ with_closed self.old market) }
        ensures err { OnErr result (self.new ≡ self.old) }
    {
        let orders = trading(exchange, market)?;
        if self.is_closed(market) {
            return Err(PhaseRefusal::Closed.into());
        }
        self.closed.reserve(1)?;
        self.closed.push_reserved(market);
        Ok(orders)
    }

    /// Opens a closed market again.
    ///
    /// The first of these: the exchange's `NoMarket` where no market has the number, and its
    /// `Settled` where it is settled; `Open` where it is not closed. Takes no memory.
    pub fn reopen(&mut self, exchange: &Exchange, market: u32) -> Result<(), PhaseRefusal>
        ensures refused { TellsFirst (λ refusal. Some refusal) result
            (reopen_refusals exchange.now self.old market) }
        ensures ok { OnOk result (self.new ≡ with_open self.old market) }
        ensures err { OnErr result (self.new ≡ self.old) }
    {
        trading(exchange, market)?;
        if !self.is_closed(market) {
            return Err(PhaseRefusal::Open);
        }
        self.open(market);
        Ok(())
    }

    /// Opens a market that is cleared or settled, whatever it was.
    pub fn open(&mut self, market: u32)
        ensures { self.new ≡ with_open self.old market }
    {
        self.closed.retain(|closed| *closed != market);
    }

    /// Opens the market that was cleared or settled, where one was.
    pub fn after_end(&mut self, ended: Option<u32>)
        ensures { self.new ≡ after_end self.old ended }
    {
        if let Some(market) = ended {
            self.open(market);
        }
    }

    // Whether an order is one of a closed market that the exchange would accept.
    fn bars_order(&self, exchange: &Exchange, order: &NewOrder) -> bool
        requires { IsNewOrderWithin order.now }
        ensures { result ≡ (is_closed self.now order.now.market
            && is_none (first_of (place_refusals exchange.now order.now))) }
    {
        self.is_closed(order.market) && exchange.check_order(order).is_ok()
    }

    // Whether an order is a live one of a closed market that the account may cancel.
    fn bars_cancel(&self, exchange: &Exchange, account: u32, order: u64) -> bool
        ensures { result ≡ bars self.now exchange.now (Command.Cancel account order) }
    {
        match exchange.market_of_order(order) {
            Some(market) => {
                self.is_closed(market) && exchange.check_cancel(account, order).is_ok()
            }
            None => false,
        }
    }

    /// Whether a closed market keeps a command from the exchange: one that places or cancels an
    /// order there, and that the exchange would accept. What it refuses it refuses as ever. Takes
    /// no memory.
    pub fn bars(&self, exchange: &Exchange, command: &Command) -> bool
        requires { IsWithin command.now }
        ensures { result ≡ bars self.now exchange.now command.now }
    {
        if let Some(order) = order_of(command) {
            return self.bars_order(exchange, &order);
        }
        match command {
            Command::Cancel { account, order } => self.bars_cancel(exchange, *account, *order),
            _ => false,
        }
    }
}
