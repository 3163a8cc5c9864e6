//! What is told of a margin, added to a line.
ghost use Rattle.std.specs.Prelude.{true, ◌≡◌, ◌++◌, OnOk, codes};
ghost use Rattle.reply_print.specs.Piece.{Fields, field, fields_text, piece_text, words};
ghost use Rattle.proposal_text.specs.MarginPieces.{margin_piece, margin_text, margin_with, margin_without};

use form::State;
use frac::Frac128;
use reply_print::printing::{add_field, add_items, add_number, add_words, append};
use std::alloc::AllocError;

/// What is told of the margin of an account in a market.
#[derive(Clone, Copy, Debug, PartialEq, Eq)]
pub enum ToldMargin {
    /// The least liability that covers what the positions owe, and a settlement at which they owe
    /// just that.
    Least { liability: Frac128, at: State },
    /// No liability covers what they owe along this ray.
    Unbounded { ray: State },
    /// A step of the run did not fit.
    Wide,
    /// The run wants a unit beyond its budget.
    Budget,
}

// Adds the field of a margin.
fn add_margin_field(line: &mut Vec<u8>, margin: &ToldMargin) -> Result<(), AllocError>
    ensures { OnOk result ((fs : Fields) → line.new.items ++ fields_text true fs
        ≡ line.old.items
        ++ fields_text true (field (codes "margin") (words (margin_text margin.now)) fs)) }
{
    match margin {
        ToldMargin::Least { liability, .. } => add_field(line, true, "margin", liability),
        ToldMargin::Unbounded { .. } => add_words(line, true, "margin", "unbounded"),
        ToldMargin::Wide => add_words(line, true, "margin", "wide"),
        ToldMargin::Budget => add_words(line, true, "margin", "budget"),
    }
}

// Adds a margin that is told with a state.
fn add_with_state(
    line: &mut Vec<u8>,
    at: u32,
    account: u32,
    market: u32,
    margin: &ToldMargin,
    state: &State,
) -> Result<(), AllocError>
    ensures { OnOk result (line.new.items ≡ line.old.items
        ++ piece_text (margin_with at account market (margin_text margin.now) state.now)) }
{
    append(line, "{")?;
    add_number(line, false, "account", u64::from(account))?;
    add_items(line, true, "at", &state.entries[..state.count as usize])?;
    add_number(line, true, "line", u64::from(at))?;
    add_margin_field(line, margin)?;
    add_number(line, true, "market", u64::from(market))?;
    add_words(line, true, "reply", "margin")?;
    append(line, "}")
}

// Adds a margin that is told by its word alone.
fn add_without_state(
    line: &mut Vec<u8>,
    at: u32,
    account: u32,
    market: u32,
    margin: &ToldMargin,
) -> Result<(), AllocError>
    ensures { OnOk result (line.new.items ≡ line.old.items
        ++ piece_text (margin_without at account market (margin_text margin.now))) }
{
    append(line, "{")?;
    add_number(line, false, "account", u64::from(account))?;
    add_number(line, true, "line", u64::from(at))?;
    add_margin_field(line, margin)?;
    add_number(line, true, "market", u64::from(market))?;
    add_words(line, true, "reply", "margin")?;
    append(line, "}")
}

// Adds the margin of an account in a market.
pub(crate) fn add_margin(
    line: &mut Vec<u8>,
    at: u32,
    account: u32,
    market: u32,
    margin: &ToldMargin,
) -> Result<(), AllocError>
    ensures { OnOk result (line.new.items
        ≡ line.old.items ++ piece_text (margin_piece at account market margin.now)) }
{
    match margin {
        ToldMargin::Least { at: state, .. } => {
            add_with_state(line, at, account, market, margin, state)
        }
        ToldMargin::Unbounded { ray } => add_with_state(line, at, account, market, margin, ray),
        ToldMargin::Wide => add_without_state(line, at, account, market, margin),
        ToldMargin::Budget => add_without_state(line, at, account, market, margin),
    }
}
