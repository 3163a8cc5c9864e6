//! What a tree is to close over.
ghost use Rattle.std.specs.Prelude.{◌≡◌, ◌≤◌, length};

use form::Order;
use frac::Frac128;

/// The fills of orders, the liability that should be enough for them, and how many entries their
/// options and the states have.
#[derive(Drop)]
pub struct Filled<'a> {
    pub orders: &'a [Order],
    pub fills: &'a [Frac128],
    pub liability: &'a Frac128,
    pub entries: usize,
    ghost count: { length fills.now ≡ length orders.now },
    ghost within: { (1 ≤ entries) × (entries ≤ 9) },
}
