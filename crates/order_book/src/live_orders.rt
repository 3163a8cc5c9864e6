// The live orders of one market in rising number, found by their numbers. Each is in a box: an
// order takes some four hundred bytes, and those behind one that is taken out move by a place.
ghost use Rattle.std.specs.Prelude.{◌≡◌, ◌++◌, [], ◌∷◌, length, slice_get, None, is_some, IfOk, OnOk, OnErr};
ghost use Rattle.std.specs.List.{find};
ghost use Rattle.order_book.specs.Markets.{has_number, without};

use form::Order;
use indexmap::IndexMap;
use std::alloc::{AllocError, Global};
use std::marker::Model;

#[derive(Drop)]
pub(crate) struct LiveOrders {
    alloc: Global,
    by_number: IndexMap<u64, Box<Order>>,
}

impl Model for LiveOrders {
    ghost use Rattle.std.specs.Prelude.{List};
    ghost use Rattle.std.specs.Map.{values_of};
    ghost use Rattle.form.specs.declared.orders.Order.{Order};
    ghost use Rattle.order_book.specs.Numbers.{AreByNumber, orders_in_boxes};

    ghost Value = { List Order };

    ghost view = { λ s. values_of (orders_in_boxes s.by_number.entries) };

    ghost invariant = { λ s. AreByNumber (orders_in_boxes s.by_number.entries) };
}

impl LiveOrders {
    pub(crate) fn new(alloc: Global) -> Self
        ensures { result ≡ [] }
    {
        LiveOrders {
            alloc,
            by_number: IndexMap::new(alloc),
        }
    }

    pub(crate) fn len(&self) -> usize
        ensures { result ≡ length self.now }
    {
        self.by_number.len()
    }

    // The order at a place, counted from 0.
    pub(crate) fn at(&self, place: usize) -> Option<Order>
        ensures { result ≡ slice_get self.now place }
    {
        match self.by_number.get_index(place) {
            Some((_, order)) => Some(**order),
            None => None,
        }
    }

    // The order with the number.
    pub(crate) fn get(&self, number: u64) -> Option<Order>
        ensures { result ≡ find (has_number number) self.now }
    {
        match self.by_number.get(&number) {
            Some(order) => Some(**order),
            None => None,
        }
    }

    // Whether an order has the number.
    pub(crate) fn has(&self, number: u64) -> bool
        ensures { result ≡ is_some (find (has_number number) self.now) }
    {
        self.by_number.contains_key(&number)
    }

    // The orders in a list.
    #[tactic(auto, using(crate::proofs::Boxes::values_boxed, crate::proofs::Boxes::one_more))]
    pub(crate) fn to_vec(&self, alloc: Global) -> Result<Vec<Order>, AllocError>
        ensures { IfOk result (λ orders. orders.items ≡ self.now) }
    {
        let mut orders = Vec::new(alloc);
        for order in self.by_number.values() {
            orders.push(**order)?;
        }
        Ok(orders)
    }

    // Puts an order last, whose number no other has.
    pub(crate) fn add(&mut self, order: Order) -> Result<(), AllocError>
        requires { find (has_number order.id) self.old ≡ None }
        ensures ok { OnOk result (self.new ≡ self.old ++ order ∷ []) }
        ensures err { OnErr result (self.new ≡ self.old) }
    {
        let boxed = Box::new(self.alloc, order)?;
        self.by_number.insert(order.id, boxed)?;
        Ok(())
    }

    // Takes the order with the number out. The others keep their places.
    pub(crate) fn remove(&mut self, number: u64)
        ensures { self.new ≡ without number self.old }
    {
        self.by_number.shift_remove(&number);
    }

    // Takes all out.
    pub(crate) fn clear(&mut self)
        ensures { self.new ≡ [] }
    {
        self.by_number.clear();
    }
}
