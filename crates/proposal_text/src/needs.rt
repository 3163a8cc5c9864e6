//! What an account needs of its balance, as it is told and read.
ghost use Rattle.std.specs.Prelude.{true, ◌≡◌, ◌≤◌, ◌++◌, IfSome, OnOk, codes};
ghost use Rattle.frac.specs.Range.{limit};
ghost use Rattle.serde_json.specs.View.{view};
ghost use Rattle.reply_print.specs.Piece.{Fields, field, fields_text, words};
ghost use Rattle.proposal_text.specs.Needs.{is_need as need_is, need_at as need_found, need_by as need_named, need_text, size_at as size_found};

use itoa::Buffer;
use reply_print::fraction_texts::LIMIT;
use reply_print::look::{is_whole_text, is_word, word_at};
use reply_print::printing::{add_key, append};
use reply_text::taking::whole_at;
use serde_json::Value;
use std::alloc::AllocError;

/// What an account needs of its balance.
#[derive(Clone, Copy, Debug, PartialEq, Eq)]
pub enum Need {
    /// So much, in ticks, whatever the prices at which its markets are settled.
    Amount { amount: u128 },
    /// The account has too many positions in the first market that has no number.
    Positions,
    /// What it may owe in the first market that has no number has no bound.
    Unbounded,
    /// A step of the run over that market did not fit.
    Wide,
    /// That run wanted a unit beyond its limit.
    Budget,
    /// Each market has a number, and their sum is above 2^127 - 1.
    Sum,
}

// Adds the amount, or the word.
fn add_need_word(line: &mut Vec<u8>, need: Need) -> Result<(), AllocError>
    ensures { OnOk result (line.new.items ≡ line.old.items ++ need_text need) }
{
    match need {
        Need::Amount { amount } => append(line, Buffer::new().format(amount)),
        Need::Positions => append(line, "positions"),
        Need::Unbounded => append(line, "unbounded"),
        Need::Wide => append(line, "wide"),
        Need::Budget => append(line, "budget"),
        Need::Sum => append(line, "sum"),
    }
}

// Adds the field of a need.
pub(crate) fn add_need(line: &mut Vec<u8>, need: Need) -> Result<(), AllocError>
    ensures { OnOk result ((fs : Fields) → line.new.items ++ fields_text true fs
        ≡ line.old.items
        ++ fields_text true (field (codes "need") (words (need_text need)) fs)) }
{
    add_key(line, true, "need")?;
    append(line, "\"")?;
    add_need_word(line, need)?;
    append(line, "\"")
}

// Whether the value is the text of a need.
pub(crate) fn is_need(value: &Value) -> bool
    ensures { result ≡ need_is (view value.now) }
{
    is_word(value, "positions")
        || is_word(value, "unbounded")
        || is_word(value, "wide")
        || is_word(value, "budget")
        || is_word(value, "sum")
        || is_whole_text(value)
}

// The size of the whole number at a key, where it is not below 0 and at most a bound.
pub(crate) fn size_at(value: &Value, key: &str, bound: u128) -> Option<u128>
    requires { bound ≤ limit }
    ensures size { result ≡ size_found bound key.now (view value.now) }
    ensures within { IfSome result (λ size. size ≤ bound) }
{
    let number = whole_at(value, key, bound)?;
    if number < 0 {
        return None;
    }
    Some(number.unsigned_abs())
}

fn need_by(value: &Value, word: &str) -> Option<Need>
    ensures { result ≡ need_named word.now (view value.now) }
{
    if word == "positions" {
        Some(Need::Positions)
    } else if word == "unbounded" {
        Some(Need::Unbounded)
    } else if word == "wide" {
        Some(Need::Wide)
    } else if word == "budget" {
        Some(Need::Budget)
    } else if word == "sum" {
        Some(Need::Sum)
    } else {
        let amount = size_at(value, "need", LIMIT)?;
        Some(Need::Amount { amount })
    }
}

// The need of a line.
pub(crate) fn need_at(value: &Value) -> Option<Need>
    ensures { result ≡ need_found (view value.now) }
{
    need_by(value, word_at(value, "need"))
}
