//! The limits of the exchange, each under one name: of what is counted, numbered or read, and of
//! amounts. What a form, an order or a batch has to keep stands with these, in `form`.
#![tactic(auto)]

// What is read.

/// The most bytes of a line, of the body of a message, and of an input that is read whole.
pub const MAX_BYTES: usize = 16_777_216;

/// The most lines of an input, empty ones among them, and so the highest number of a line. The
/// bodies of messages are lines.
pub const MAX_LINES: u64 = 16_777_216;

/// The most fields of a command: a bundle of four legs on eight underlyings.
pub const MAX_FIELDS: usize = 51;

/// The first field that a refusal can name: the one behind the command's word.
pub const MIN_FIELD: u64 = 2;

/// The last field that a refusal can name.
pub const MAX_FIELD: u64 = MAX_FIELDS as u64;

/// The highest number of a refusal. The least is 1.
pub const MAX_REFUSAL: u64 = 13;

// Sessions and their messages.

/// The greatest number of a session. The least is 1.
pub const MAX_SESSION: u32 = 999_999_999;

/// The greatest number of a message. The least is 1.
pub const MAX_MESSAGE: u32 = 1_000_000;

/// At most so many sessions are known.
pub const MAX_SESSIONS: usize = 10_000;

// Accounts and amounts.

/// The greatest number of an account. Account 0 is the house.
pub const MAX_ACCOUNT: u64 = 999_999_999;

/// At most so many accounts are open, the house apart.
pub const MAX_ACCOUNTS: usize = 10_000;

/// The greatest amount of a deposit or a withdrawal, in ticks.
pub const MAX_AMOUNT: u64 = 1_000_000_000_000_000;

/// The greatest amount that one call reserves, in ticks.
pub const MAX_RESERVE: u64 = 1_000_000_000_000_000_000;

/// The most that is reserved of an account where a call reserves more, in ticks.
pub const MAX_RESERVED: u128 = 100_000_000_000_000_000_000_000;

// Markets and batches.

/// The greatest number of a market. The least is 1.
pub const MAX_MARKET: u64 = 999_999_999;

/// The most markets of an exchange, settled ones among them.
pub const MAX_MARKETS: usize = 64;

/// The most batches in the life of an exchange, and so the highest number of one.
pub const MAX_BATCHES: u64 = 2_000_000;

/// The highest place of a leg in a batch: 256 orders of four legs each.
pub const MAX_PLACE: u64 = 1_024;

/// The most orders that lapse at a settlement.
pub const MAX_LAPSED: u64 = 256;

// Settlements.

/// The highest price at which a market is settled, in whole prices.
pub const MAX_SETTLEMENT_PRICE: u32 = 1_000_000_000;

/// The most that an option pays at such prices, in ticks: 8 weights of 1000 at 10^9 each, and a
/// strike of 10^9.
pub const MAX_PAYOFF: u64 = 8_001_000_000_000;

/// The largest size of a position's gain, and the greatest amount of one entry of the ledger, in
/// ticks: 1,000,000 options that pay as much.
pub const MAX_GAIN: u64 = 8_001_000_000_000_000_000;
