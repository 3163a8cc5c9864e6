// The markets in the order in which they were listed, found by their numbers.
ghost use Rattle.std.specs.Prelude.{◌≡◌, ◌≤◌, ◌++◌, [], ◌∷◌, ℕ, nat_eq, length, is_some, false, None, IfOk, IsSome, OnOk, OnErr};
ghost use Rattle.std.specs.List.{find};
ghost use Rattle.std.specs.Map.{keys_of, lookup};
ghost use Rattle.std.specs.Option.{option_copied};
ghost use Rattle.order_book.specs.Markets.{settled_market, has_number, changed_in, live_in, live_orders, with_live_in, without, holder_of};
ghost use Rattle.order_book.specs.Numbers.{number_count};

use crate::market::Market;
use form::Order;
use indexmap::IndexMap;
use std::alloc::{AllocError, Global};
use std::marker::Model;

#[derive(Drop)]
pub(crate) struct Markets {
    by_number: IndexMap<u32, Market>,
}

impl Model for Markets {
    ghost use Rattle.std.specs.Prelude.{List, ℕ};
    ghost use Rattle.order_book.specs.Markets.{MarketState};

    ghost Value = { List (ℕ × MarketState) };

    ghost view = { λ s. s.by_number.entries };
}

impl Markets {
    pub(crate) fn new(alloc: Global) -> Self
        ensures { result ≡ [] }
    {
        Markets {
            by_number: IndexMap::new(alloc),
        }
    }

    pub(crate) fn len(&self) -> usize
        ensures { result ≡ length self.now }
    {
        self.by_number.len()
    }

    pub(crate) fn get(&self, market: u32) -> Option<&Market>
        ensures { option_copied result ≡ lookup (nat_eq market) self.now }
    {
        self.by_number.get(&market)
    }

    // Lists a market without live orders. It goes last.
    pub(crate) fn list(
        &mut self,
        alloc: Global,
        market: u32,
        underlyings: u8,
    ) -> Result<(), AllocError>
        requires { lookup (nat_eq market) self.old ≡ None }
        ensures ok { OnOk result (self.new ≡ self.old
            ++ (market, record { underlyings = underlyings; settled = false; live = [] }) ∷ []) }
        ensures err { OnErr result (self.new ≡ self.old) }
    {
        self.by_number
            .insert(market, Market::new(alloc, underlyings))?;
        Ok(())
    }

    // The numbers, in the order in which the markets were listed.
    pub(crate) fn numbers(&self, alloc: Global) -> Result<Vec<u32>, AllocError>
        ensures { IfOk result (λ numbers. numbers.items ≡ keys_of self.now) }
    {
        let mut numbers = Vec::new(alloc);
        for (market, _) in self.by_number.iter() {
            numbers.push(*market)?;
        }
        Ok(numbers)
    }

    // Puts an order last in a market that is there, whose number no other order of the market has.
    pub(crate) fn add(&mut self, market: u32, order: Order) -> Result<(), AllocError>
        requires there { IsSome (lookup (nat_eq market) self.old) }
        requires fresh { find (has_number order.id) (live_in market self.old) ≡ None }
        ensures ok { OnOk result
            (self.new ≡ with_live_in market (live_in market self.old ++ order ∷ []) self.old) }
        ensures err { OnErr result (self.new ≡ self.old) }
    {
        self.by_number.get_mut(&market).unwrap().add(order)
    }

    // Whether a market has a live order with the number.
    fn has(&self, market: u32, number: u64) -> bool
        ensures { result ≡ is_some (find (has_number number) (live_in market self.now)) }
    {
        match self.get(market) {
            Some(found) => found.has(number),
            None => false,
        }
    }

    // The number of the market with a live order of the number, of which there are no two. It is
    // looked for first in the market in which it was placed, if that is told.
    #[tactic(auto, using(crate::proofs::Placed::held))]
    pub(crate) fn holder(&self, placed: Option<u32>, number: u64) -> Option<u32>
        requires { number_count number (live_orders self.now) ≤ 1 }
        ensures { result ≡ holder_of number self.now }
    {
        if let Some(market) = placed {
            if self.has(market, number) {
                return Some(market);
            }
        }
        self.first_holder(number)
    }

    // The number of the first market with a live order of the number.
    fn first_holder(&self, number: u64) -> Option<u32>
        ensures { result ≡ holder_of number self.now }
    {
        for (market, found) in self.by_number.iter() {
            if found.has(number) {
                return Some(*market);
            }
        }
        None
    }

    // The live order with the number in a market.
    pub(crate) fn order(&self, market: u32, number: u64) -> Option<Order>
        ensures { result ≡ find (has_number number) (live_in market self.now) }
    {
        self.get(market)?.order(number)
    }

    // Takes the order with the number out of a market that is there. The others keep their places.
    pub(crate) fn remove(&mut self, market: u32, number: u64)
        requires { IsSome (lookup (nat_eq market) self.old) }
        ensures { self.new
            ≡ with_live_in market (without number (live_in market self.old)) self.old }
    {
        self.by_number.get_mut(&market).unwrap().remove(number);
    }

    // Takes all live orders out of a market that is there.
    pub(crate) fn clear(&mut self, market: u32)
        requires { IsSome (lookup (nat_eq market) self.old) }
        ensures { self.new ≡ with_live_in market [] self.old }
    {
        self.by_number.get_mut(&market).unwrap().clear();
    }

    // Settles a market that is there, for good. Answers how many of its live orders lapse.
    pub(crate) fn close(&mut self, market: u32) -> usize
        requires { IsSome (lookup (nat_eq market) self.old) }
        ensures lapsed { result ≡ length (live_in market self.old) }
        ensures closed { self.new ≡ changed_in settled_market market self.old }
    {
        self.by_number.get_mut(&market).unwrap().close()
    }
}
