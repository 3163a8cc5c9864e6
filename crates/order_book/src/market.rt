// One market: its underlyings, whether it is settled, and its live orders in rising number.
ghost use Rattle.std.specs.Prelude.{◌≡◌, ◌≤◌, ◌++◌, [], ◌∷◌, false, length, slice_get, None, is_some, IfOk, OnOk, OnErr};
ghost use Rattle.std.specs.List.{find};
ghost use Rattle.form.specs.declared.limits.TheConstants.{MAX_ORDERS};
ghost use Rattle.order_book.specs.Book.{batch_of, info_of};
ghost use Rattle.order_book.specs.Markets.{settled_market, has_number, with_live, without};

use crate::live_orders::LiveOrders;
use form::{Batch, Order, Orders};
use std::alloc::{AllocError, Global};
use std::marker::Model;

/// What is told of a market: how many underlyings it has, whether it is settled, and how many live
/// orders it has.
#[derive(Clone, Copy, Debug, PartialEq, Eq)]
pub struct MarketInfo {
    pub underlyings: u8,
    pub settled: bool,
    pub live: u32,
}

#[derive(Drop)]
pub(crate) struct Market {
    underlyings: u8,
    settled: bool,
    live: LiveOrders,
}

impl Model for Market {
    ghost use Rattle.order_book.specs.Markets.{MarketState};

    ghost Value = { MarketState };

    ghost view = { λ m. record {
      underlyings = m.underlyings;
      settled = m.settled;
      live = m.live;
    } };
}

impl Market {
    // A market without live orders.
    pub(crate) fn new(alloc: Global, underlyings: u8) -> Self
        ensures { result ≡ record { underlyings = underlyings; settled = false; live = [] } }
    {
        Market {
            underlyings,
            settled: false,
            live: LiveOrders::new(alloc),
        }
    }

    pub(crate) fn info(&self) -> MarketInfo
        requires { length self.now.live ≤ MAX_ORDERS }
        ensures { result ≡ info_of self.now }
    {
        MarketInfo {
            underlyings: self.underlyings,
            settled: self.settled,
            live: self.live.len() as u32,
        }
    }

    pub(crate) fn is_settled(&self) -> bool
        ensures { result ≡ self.now.settled }
    {
        self.settled
    }

    // The live order at a place, counted from 0.
    pub(crate) fn order_at(&self, place: u32) -> Option<Order>
        ensures { result ≡ slice_get self.now.live place }
    {
        self.live.at(place as usize)
    }

    // The live order with the number.
    pub(crate) fn order(&self, number: u64) -> Option<Order>
        ensures { result ≡ find (has_number number) self.now.live }
    {
        self.live.get(number)
    }

    // Whether a live order has the number.
    pub(crate) fn has(&self, number: u64) -> bool
        ensures { result ≡ is_some (find (has_number number) self.now.live) }
    {
        self.live.has(number)
    }

    // Puts an order last, whose number no other has.
    pub(crate) fn add(&mut self, order: Order) -> Result<(), AllocError>
        requires { find (has_number order.id) self.old.live ≡ None }
        ensures ok { OnOk result (self.new ≡ with_live self.old (self.old.live ++ order ∷ [])) }
        ensures err { OnErr result (self.new ≡ self.old) }
    {
        self.live.add(order)
    }

    // The live orders as a batch.
    pub(crate) fn batch(&self, alloc: Global) -> Result<Batch, AllocError>
        ensures { IfOk result (λ batch. batch ≡ batch_of self.now) }
    {
        Ok(Batch {
            underlyings: self.underlyings,
            orders: Orders::from_vec(self.live.to_vec(alloc)?),
        })
    }

    // Takes the order with the number out. The others keep their places.
    pub(crate) fn remove(&mut self, number: u64)
        ensures { self.new ≡ with_live self.old (without number self.old.live) }
    {
        self.live.remove(number);
    }

    // Takes all live orders out.
    pub(crate) fn clear(&mut self)
        ensures { self.new ≡ with_live self.old [] }
    {
        self.live.clear();
    }

    // Settles the market for good. Answers how many live orders lapse.
    pub(crate) fn close(&mut self) -> usize
        ensures lapsed { result ≡ length self.old.live }
        ensures closed { self.new ≡ settled_market self.old }
    {
        let lapsed = self.live.len();
        self.clear();
        self.settled = true;
        lapsed
    }
}
