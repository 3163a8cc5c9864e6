//! Orders for bundles of options, and the batches of one market that are cleared at once.

use crate::bundles::Bundle;
use lists::List;

/// Whether an order buys or sells its bundle.
#[derive(Clone, Copy, Debug, PartialEq, Eq)]
pub enum Side {
    Buy,
    Sell,
}

/// An order: at most `quantity` of the bundle at the limit `price`, in ticks for one bundle, or
/// better.
#[derive(Clone, Copy, Debug, PartialEq, Eq)]
pub struct Order {
    pub id: u64,
    pub account: u32,
    pub side: Side,
    pub bundle: Bundle,
    pub price: u64,
    pub quantity: u32,
}

/// The orders of a batch, which contracts see as their list.
pub type Orders = List<Order>;

/// The live orders of one market on this number of underlyings, by rising id.
#[derive(Debug, Drop)]
pub struct Batch {
    pub underlyings: u8,
    pub orders: Orders,
}
