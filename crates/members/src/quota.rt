//! How much of what all share one session may use.

/// The sessions from 1 to this one are the operator's.
pub const LAST_OPERATOR: u32 = 9;

/// How many accounts another session may open.
pub const MAX_OPENED: u32 = 16;

/// How many live orders its accounts may have in a market.
pub const MAX_OWN_LIVE: u32 = 64;

/// How many orders it may place.
pub const MAX_PLACED: u32 = 50_000;
