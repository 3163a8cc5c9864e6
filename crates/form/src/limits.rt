//! The limits of the exchange that an order, a batch or a clear has to keep.

/// The most underlyings of a market.
pub const MAX_UNDERLYINGS: u8 = 8;

/// The largest size of a weight.
pub const MAX_WEIGHT: u16 = 1_000;

/// The largest size of a strike, in whole prices.
pub const MAX_STRIKE: u64 = 1_000_000_000;

/// The highest limit price of an order, in ticks.
pub const MAX_PRICE: u64 = 1_000_000_000_000;

/// The largest quantity of an order.
pub const MAX_QUANTITY: u32 = 1_000_000;

/// The most legs of a bundle.
pub const MAX_LEGS: u8 = 4;

/// The largest size of a leg's count.
pub const MAX_COUNT: u16 = 1_000;

/// The most options that an order counts: its quantity times the sum of the sizes of its bundle's
/// counts.
pub const MAX_OPTIONS: u32 = 1_000_000;

/// The most orders of a batch.
pub const MAX_ORDERS: usize = 256;

/// The greatest number of an order. The least is 1.
pub const MAX_ORDER: u64 = 1_000_000;

/// The greatest work budget of a clear, in units of work.
pub const MAX_BUDGET: u32 = 20_000;
