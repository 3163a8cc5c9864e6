//! What an account has in a market.

use form::Order;
use settlement::Position;

/// The positions and the live orders of an account in one market on this number of underlyings, the
/// positions in the order in which they were added and the orders by rising number.
#[derive(Drop)]
pub struct Market {
    pub number: u32,
    pub underlyings: u8,
    pub positions: Vec<Position>,
    pub live: Vec<Order>,
}
