ghost use Rattle.std.specs.Prelude.{◌≡◌, ◌+◌, ◌≤◌, ◌<◌, ◌≢◌, length, true, Some, Err, slice_get, IfOk, IfSome, OnOk, OnErr};
ghost use Rattle.std.specs.Map.{keys_of};
ghost use Rattle.std.specs.Option.{option_map};
ghost use Rattle.form.specs.declared.limits.TheConstants.{MAX_ORDERS, MAX_UNDERLYINGS};
ghost use Rattle.form.specs.Limits.{IsOrderWithin, IsWithinLimits};
ghost use Rattle.limits.specs.declared.TheConstants.{MAX_BATCHES};
ghost use Rattle.order_book.specs.declared.refusal.BookRefusal.TheVariants as BookRefusal;
ghost use Rattle.order_book.specs.Book.{empty_book, market_of, live_of, order_of, info_in, is_trading, batch_of, with_number, with_market, with_order, without_order, after_batch, after_close};
ghost use Rattle.order_book.specs.Refusals.{unless_memory, market_refusals, order_refusals, room_refusals, place_refusals, live_refusals, batch_refusals, close_refusals, cancel_refusals};
ghost use Rattle.order_book.specs.Within.{IsNewOrderWithin};
ghost use Rattle.order_book.specs.Kept.{IsBookKept};
ghost use Rattle.order_book.specs.Markets.{holder_of};
ghost use Rattle.lists.specs.Refusals.{TellsFirst};

use crate::market::MarketInfo;
use crate::markets::Markets;
use crate::new_order::NewOrder;
use crate::refusal::BookRefusal;
use form::{Batch, MAX_ORDER, MAX_ORDERS, Order};
use limits::{MAX_BATCHES, MAX_MARKETS};
use std::alloc::{AllocError, Global};
use std::marker::Model;

/// The markets with their live orders, and how many orders were accepted and batches finished.
#[derive(Drop)]
pub struct Book {
    alloc: Global,
    markets: Markets,
    // the market in which each accepted order was placed: where a cancel looks first
    placed: Vec<u32>,
    accepted: u64,
    finished: u32,
}

impl Model for Book {
    ghost use Rattle.order_book.specs.Book.{BookState, book_of};
    ghost use Rattle.order_book.specs.Kept.{IsBookKept};

    ghost Value = { BookState };

    ghost view = { λ s. book_of s.markets s.accepted s.finished };

    ghost invariant = { λ s. IsBookKept (book_of s.markets s.accepted s.finished) };
}

impl Book {
    /// No market, and no order or batch so far.
    pub fn new(alloc: Global) -> Self
        ensures { result ≡ empty_book }
    {
        Book {
            alloc,
            markets: Markets::new(alloc),
            placed: Vec::new(alloc),
            accepted: 0,
            finished: 0,
        }
    }

    // Looks whether a market may be listed under a number: as `market` refuses, memory aside.
    fn check_market(&self, market: u32) -> Result<(), BookRefusal>
        ensures refused { TellsFirst unless_memory result (market_refusals self.now market) }
        ensures no_memory { result ≢ Err BookRefusal.Memory }
    {
        if self.markets.get(market).is_some() {
            return Err(BookRefusal::MarketExists);
        }
        if self.markets.len() >= MAX_MARKETS {
            return Err(BookRefusal::TooMany);
        }
        Ok(())
    }

    /// Lists a market on 1 to 8 underlyings, without live orders. It goes last.
    ///
    /// `MarketExists` where a market has this number, and else `TooMany` where there are 64
    /// markets.
    pub fn market(&mut self, market: u32, underlyings: u8) -> Result<(), BookRefusal>
        requires some { 1 ≤ underlyings }
        requires few { underlyings ≤ MAX_UNDERLYINGS }
        ensures refused { TellsFirst unless_memory result (market_refusals self.old market) }
        ensures ok { OnOk result (self.new ≡ with_market self.old market underlyings) }
        ensures err { OnErr result (self.new ≡ self.old) }
    {
        self.check_market(market)?;
        self.markets.list(self.alloc, market, underlyings)?;
        Ok(())
    }

    /// What there is to tell of a market: its underlyings, whether it is settled, how many live
    /// orders it has.
    ///
    /// `None` where no market has this number.
    pub fn info(&self, market: u32) -> Option<MarketInfo>
        ensures info { result ≡ info_in self.now market }
        ensures underlyings { IfSome result (λ info.
            (1 ≤ info.underlyings) × (info.underlyings ≤ MAX_UNDERLYINGS)) }
        ensures live { IfSome result (λ info. info.live ≤ MAX_ORDERS) }
        ensures kept { IsBookKept self.now }
    {
        Some(self.markets.get(market)?.info())
    }

    /// The numbers of the markets, in the order in which they were listed.
    pub fn numbers(&self) -> Result<Vec<u32>, AllocError>
        ensures { IfOk result (λ numbers. numbers.items ≡ keys_of self.now.markets) }
    {
        self.markets.numbers(self.alloc)
    }

    /// Looks whether an order's market is there, not settled and for the order's bundle.
    ///
    /// The first of these: `NoMarket` where no market has the number; `Settled` where it is
    /// settled; `WeightCount` where a leg of the bundle has another number of underlyings than the
    /// market.
    pub fn check_order(&self, order: &NewOrder) -> Result<(), BookRefusal>
        ensures refused { TellsFirst unless_memory result (order_refusals self.now order.now) }
        ensures no_memory { result ≢ Err BookRefusal.Memory }
    {
        let market = self.info(order.market).ok_or(BookRefusal::NoMarket)?;
        if market.settled {
            return Err(BookRefusal::Settled);
        }
        if !order.bundle.is_on(market.underlyings) {
            return Err(BookRefusal::WeightCount);
        }
        Ok(())
    }

    /// Looks whether a market that is there has room for an order more, and the book too.
    ///
    /// The first of these: `BookFull` where the market has 256 live orders; `TooMany` where
    /// 1,000,000 orders were accepted. Takes no memory.
    pub fn check_room(&self, market: u32) -> Result<(), BookRefusal>
        ensures refused { TellsFirst unless_memory result (room_refusals self.now market) }
        ensures no_memory { result ≢ Err BookRefusal.Memory }
    {
        if let Some(found) = self.info(market) {
            if found.live as usize >= MAX_ORDERS {
                return Err(BookRefusal::BookFull);
            }
        }
        if self.accepted >= MAX_ORDER {
            return Err(BookRefusal::TooMany);
        }
        Ok(())
    }

    // Looks whether an order may be placed, memory aside.
    fn check_place(&self, order: &NewOrder) -> Result<(), BookRefusal>
        ensures refused { TellsFirst unless_memory result (place_refusals self.now order.now) }
        ensures no_memory { result ≢ Err BookRefusal.Memory }
    {
        self.check_order(order)?;
        self.check_room(order.market)
    }

    /// The order as it is live if it is placed now, under the next number. Takes no memory.
    pub fn as_live(&self, order: &NewOrder) -> Order
        ensures { result ≡ with_number (self.now.accepted + 1) order.now }
    {
        with_number(order, self.accepted + 1)
    }

    /// Accepts an order whose options, price and quantity are within the limits, and answers its
    /// number, which is one more than the orders accepted before. It goes last among the live
    /// orders of its market.
    ///
    /// As `check_order` refuses, and then as `check_room`.
    pub fn place(&mut self, order: &NewOrder) -> Result<u64, BookRefusal>
        requires { IsNewOrderWithin order.now }
        ensures refused { TellsFirst unless_memory result (place_refusals self.old order.now) }
        ensures number { IfOk result (λ number. number ≡ self.old.accepted + 1) }
        ensures ok { OnOk result (self.new ≡ with_order self.old order.now) }
        ensures err { OnErr result (self.new ≡ self.old) }
    {
        self.check_place(order)?;
        note(&mut self.placed, self.accepted, order.market)?;
        let number = self.accepted + 1;
        self.markets.add(order.market, with_number(order, number))?;
        self.accepted = number;
        Ok(number)
    }

    /// The market with a live order of the number.
    ///
    /// `None` where no live order has the number. Takes no memory.
    pub fn market_of_order(&self, order: u64) -> Option<u32>
        ensures { result ≡ holder_of order self.now.markets }
    {
        self.markets.holder(placed_in(&self.placed, order), order)
    }

    // The live order that an account may cancel, behind its market.
    fn own_order(&self, account: u32, order: u64) -> Result<(u32, Order), BookRefusal>
        ensures refused { TellsFirst unless_memory result (cancel_refusals self.now account order) }
        ensures no_memory { result ≢ Err BookRefusal.Memory }
        ensures market { IfOk result (λ r. holder_of order self.now.markets ≡ Some r.0) }
        ensures order { IfOk result (λ r. order_of self.now order ≡ Some r.1) }
    {
        let Some(market) = self.market_of_order(order) else {
            return Err(BookRefusal::NoOrder);
        };
        let found = self.markets.order(market, order).unwrap();
        if found.account != account {
            return Err(BookRefusal::NotOwner);
        }
        Ok((market, found))
    }

    /// Looks whether an account may cancel a live order.
    ///
    /// `NoOrder` where no live order has the number, and else `NotOwner` where it is another
    /// account's. Takes no memory.
    pub fn check_cancel(&self, account: u32, order: u64) -> Result<(), BookRefusal>
        ensures refused { TellsFirst unless_memory result (cancel_refusals self.now account order) }
        ensures no_memory { result ≢ Err BookRefusal.Memory }
    {
        self.own_order(account, order)?;
        Ok(())
    }

    /// Takes a live order out, and answers it. The others keep their places.
    ///
    /// As `check_cancel` refuses.
    pub fn cancel(&mut self, account: u32, order: u64) -> Result<Order, BookRefusal>
        ensures refused { TellsFirst unless_memory result (cancel_refusals self.old account order) }
        ensures no_memory { result ≢ Err BookRefusal.Memory }
        ensures order { IfOk result (λ found. order_of self.old order ≡ Some found) }
        ensures ok { OnOk result (self.new ≡ without_order self.old order) }
        ensures err { OnErr result (self.new ≡ self.old) }
        ensures within { IfOk result IsOrderWithin }
    {
        let (market, found) = self.own_order(account, order)?;
        self.markets.remove(market, order);
        Ok(found)
    }

    /// Looks whether a market is there and not settled.
    ///
    /// The first of these: `NoMarket` where no market has the number; `Settled` where it is
    /// settled. Takes no memory.
    pub fn check_live(&self, market: u32) -> Result<(), BookRefusal>
        ensures refused { TellsFirst unless_memory result (live_refusals self.now market) }
        ensures no_memory { result ≢ Err BookRefusal.Memory }
    {
        let market = self.info(market).ok_or(BookRefusal::NoMarket)?;
        if market.settled {
            return Err(BookRefusal::Settled);
        }
        Ok(())
    }

    /// The live orders of a market that is not settled, in rising number, as a batch, whether or
    /// not one batch more may be finished.
    ///
    /// The first of these: `NoMarket` where no market has the number; `Settled` where it is
    /// settled.
    pub fn live(&self, market: u32) -> Result<Batch, BookRefusal>
        ensures refused { TellsFirst unless_memory result (live_refusals self.now market) }
        ensures batch { IfOk result (λ batch.
            option_map batch_of (market_of self.now market) ≡ Some batch) }
        ensures within { IfOk result IsWithinLimits }
        ensures trading { OnOk result (is_trading self.now market ≡ true) }
    {
        let found = self.markets.get(market).ok_or(BookRefusal::NoMarket)?;
        if found.is_settled() {
            return Err(BookRefusal::Settled);
        }
        Ok(found.batch(self.alloc)?)
    }

    /// Looks whether a batch of a market may be finished.
    ///
    /// The first of these: `NoMarket` where no market has the number; `Settled` where it is
    /// settled; `TooMany` where 2,000,000 batches were finished. Takes no memory.
    pub fn check_batch(&self, market: u32) -> Result<(), BookRefusal>
        ensures refused { TellsFirst unless_memory result (batch_refusals self.now market) }
        ensures no_memory { result ≢ Err BookRefusal.Memory }
    {
        let market = self.info(market).ok_or(BookRefusal::NoMarket)?;
        if market.settled {
            return Err(BookRefusal::Settled);
        }
        if u64::from(self.finished) >= MAX_BATCHES {
            return Err(BookRefusal::TooMany);
        }
        Ok(())
    }

    /// The live orders of a market, in rising number: the next batch.
    ///
    /// The first of these: `NoMarket` where no market has the number; `Settled` where it is
    /// settled; `TooMany` where 2,000,000 batches were finished.
    pub fn batch(&self, market: u32) -> Result<Batch, BookRefusal>
        ensures refused { TellsFirst unless_memory result (batch_refusals self.now market) }
        ensures batch { IfOk result (λ batch.
            option_map batch_of (market_of self.now market) ≡ Some batch) }
        ensures within { IfOk result IsWithinLimits }
        ensures may_finish { OnOk result
            ((is_trading self.now market ≡ true) × (self.now.finished < MAX_BATCHES)) }
    {
        let found = self.markets.get(market).ok_or(BookRefusal::NoMarket)?;
        if found.is_settled() {
            return Err(BookRefusal::Settled);
        }
        if u64::from(self.finished) >= MAX_BATCHES {
            return Err(BookRefusal::TooMany);
        }
        Ok(found.batch(self.alloc)?)
    }

    /// Finishes a batch of a market that is there and not settled, while fewer than 2,000,000
    /// batches were finished: the market has no live orders left. Answers the number of the batch,
    /// counted from 1 over all markets.
    pub fn finish_batch(&mut self, market: u32) -> u32
        requires open { is_trading self.old market ≡ true }
        requires few { self.old.finished < MAX_BATCHES }
        ensures number { result ≡ self.old.finished + 1 }
        ensures finished { self.new ≡ after_batch self.old market }
    {
        self.markets.clear(market);
        self.finished += 1;
        self.finished
    }

    /// Looks whether a market may be settled at this number of prices.
    ///
    /// The first of these: `NoMarket` where no market has the number; `Settled` where it is
    /// settled; `WeightCount` where it has another number of underlyings. Takes no memory.
    pub fn check_close(&self, market: u32, prices: u8) -> Result<(), BookRefusal>
        ensures refused { TellsFirst unless_memory result (close_refusals self.now market prices) }
        ensures no_memory { result ≢ Err BookRefusal.Memory }
    {
        let market = self.info(market).ok_or(BookRefusal::NoMarket)?;
        if market.settled {
            return Err(BookRefusal::Settled);
        }
        if prices != market.underlyings {
            return Err(BookRefusal::WeightCount);
        }
        Ok(())
    }

    /// Settles a market that is there and not settled, for good: its live orders lapse. Answers how
    /// many they were. Takes no memory.
    pub fn close(&mut self, market: u32) -> u32
        requires { is_trading self.old market ≡ true }
        ensures lapsed { result ≡ length (live_of self.old market) }
        ensures closed { self.new ≡ after_close self.old market }
    {
        self.markets.close(market) as u32
    }

    /// The live order of a market at a place, counted from 0 in rising number.
    ///
    /// `None` where no market has the number, or it has at most `place` live orders.
    pub fn live_order(&self, market: u32, place: u32) -> Option<Order>
        ensures order { result ≡ slice_get (live_of self.now market) place }
        ensures within { IfSome result IsOrderWithin }
    {
        self.markets.get(market)?.order_at(place)
    }
}

// Notes the market in which the order after so many is placed; one noted before, whose order found
// no memory, is forgotten.
fn note(placed: &mut Vec<u32>, accepted: u64, market: u32) -> Result<(), AllocError> {
    placed.truncate(accepted as usize);
    placed.push(market)?;
    Ok(())
}

// The market in which the order with the number was placed, where that is told.
fn placed_in(placed: &[u32], number: u64) -> Option<u32> {
    let place = number.checked_sub(1)?;
    placed.get(place as usize).copied()
}

// The order with its number.
fn with_number(order: &NewOrder, id: u64) -> Order
    ensures { result ≡ with_number id order.now }
{
    Order {
        id,
        account: order.account,
        side: order.side,
        bundle: order.bundle,
        price: order.price,
        quantity: order.quantity,
    }
}
