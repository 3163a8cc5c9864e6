use form::{Bundle, Side};

/// An order as a trader hands it in: at most `quantity` of the bundle at the limit `price`, in
/// ticks for one bundle, or better.
#[derive(Clone, Copy, Debug, PartialEq, Eq)]
pub struct NewOrder {
    pub account: u32,
    pub market: u32,
    pub side: Side,
    pub bundle: Bundle,
    pub price: u64,
    pub quantity: u32,
}
