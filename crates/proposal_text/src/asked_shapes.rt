// The shapes of lines, and whether their texts are numbers or words.
ghost use Rattle.std.specs.Prelude.{◌≡◌};
ghost use Rattle.serde_json.specs.View.{view};
ghost use Rattle.proposal_text.specs.AskedShapes.{has_its_state as state_is, is_bare as bare_is, is_margin as margin_is, is_price as price_is, margin_numbers as margin_numbered, margin_shape as margin_shaped, priced_shape as priced_shaped, prices_numbers as prices_numbered, prices_shape as prices_shaped};

use reply_print::cleared_numbers::{are_entries, is_fraction_text};
use reply_print::cleared_shape::is_state;
use reply_print::look::{
    has_at, has_members, has_text, has_whole, is_whole_text, is_word, word_at,
};
use serde_json::Value;

// Two prices of a market, among so many members.
pub(crate) fn prices_shape(value: &Value, members: usize) -> bool
    ensures { result ≡ prices_shaped members (view value.now) }
{
    has_members(value, members)
        && has_text(value, "ask")
        && has_text(value, "bid")
        && has_whole(value, "line")
        && has_whole(value, "market")
}

pub(crate) fn priced_shape(value: &Value) -> bool
    ensures { result ≡ priced_shaped (view value.now) }
{
    prices_shape(value, 6) && has_whole(value, "quantity")
}

// Whether a margin is told by this word alone.
fn is_bare(word: &str) -> bool
    ensures { result ≡ bare_is word.now }
{
    word == "wide" || word == "budget"
}

fn has_its_state(value: &Value, word: &str) -> bool
    ensures { result ≡ state_is word.now (view value.now) }
{
    if is_bare(word) {
        has_members(value, 5)
    } else {
        has_members(value, 6) && has_at(value, "at", is_state)
    }
}

pub(crate) fn margin_shape(value: &Value) -> bool
    ensures { result ≡ margin_shaped (view value.now) }
{
    has_text(value, "margin")
        && has_its_state(value, word_at(value, "margin"))
        && has_whole(value, "account")
        && has_whole(value, "line")
        && has_whole(value, "market")
}

fn is_price(value: &Value) -> bool
    ensures { result ≡ price_is (view value.now) }
{
    is_word(value, "never") || is_word(value, "unmarked") || is_whole_text(value)
}

pub(crate) fn prices_numbers(value: &Value) -> bool
    ensures { result ≡ prices_numbered (view value.now) }
{
    has_at(value, "ask", is_price) && has_at(value, "bid", is_price)
}

fn is_margin(value: &Value) -> bool
    ensures { result ≡ margin_is (view value.now) }
{
    is_word(value, "unbounded")
        || is_word(value, "wide")
        || is_word(value, "budget")
        || is_fraction_text(value)
}

pub(crate) fn margin_numbers(value: &Value) -> bool
    ensures { result ≡ margin_numbered (view value.now) }
{
    has_at(value, "margin", is_margin)
        && (is_bare(word_at(value, "margin")) || has_at(value, "at", are_entries))
}
