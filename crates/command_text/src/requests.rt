//! What a line asks, over all words.

use crate::command::Command;
use form::{Form, Side};

/// At which prices one further option would raise the greatest surplus of a market, in clears of at
/// most `budget` units each.
#[derive(Clone, Copy, Debug, PartialEq, Eq)]
pub struct QuoteRequest {
    /// The number of the market.
    pub market: u32,
    /// The work budget of each clear, in units.
    pub budget: u32,
    /// The option.
    pub form: Form,
}

/// At which prices a further order for so many of the options would.
#[derive(Clone, Copy, Debug, PartialEq, Eq)]
pub struct PriceRequest {
    /// The market, the budget and the option.
    pub quote: QuoteRequest,
    /// The quantity.
    pub quantity: u32,
}

/// What would be filled of a further order, if the market were cleared with it at the end.
#[derive(Clone, Copy, Debug, PartialEq, Eq)]
pub struct TryRequest {
    /// The market, the budget and the option.
    pub quote: QuoteRequest,
    /// Whether the order buys or sells.
    pub side: Side,
    /// Its limit price in ticks.
    pub price: u64,
    /// Its quantity.
    pub quantity: u32,
}

/// The margin of an account's positions in a market, in searches of at most `budget` units
/// together.
#[derive(Clone, Copy, Debug, PartialEq, Eq)]
pub struct MarginRequest {
    /// The number of the account.
    pub account: u32,
    /// The number of the market.
    pub market: u32,
    /// The work budget, in units.
    pub budget: u32,
}

/// A proposal for a market, as the text that stands in the line.
#[derive(Clone, Copy, Debug, PartialEq, Eq)]
pub struct ProposeRequest {
    /// The number of the market; `None` where it is out of its range, which is told only of a text
    /// that is a proposal.
    pub market: Option<u32>,
    /// The place in the line from which on the proposal stands.
    pub from: usize,
}

/// What a line asks. Its numbers are within the limits.
#[derive(Debug, Drop)]
pub enum Request {
    /// A command, which may change the exchange.
    Command(Command),
    /// A quote.
    Quote(QuoteRequest),
    /// The prices of so many options.
    Price(PriceRequest),
    /// The fill of a further order.
    Try(TryRequest),
    /// A margin.
    Margin(MarginRequest),
    /// The live orders of a market.
    Book { market: u32 },
    /// The positions of an account in a market.
    Positions { account: u32, market: u32 },
    /// That an account is secured from here on.
    Secure { account: u32 },
    /// What an account needs.
    Need { account: u32 },
    /// That no order of a market comes or goes before it is cleared.
    Close { market: u32 },
    /// That they may again.
    Reopen { market: u32 },
    /// Fills with their proof.
    Propose(ProposeRequest),
}
