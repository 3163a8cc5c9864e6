//! The shape of a line.
ghost use Rattle.std.specs.Prelude.{◌≡◌};
ghost use Rattle.serde_json.specs.View.{view};
ghost use Rattle.reply_print.specs.Look.{is_list as list_passes};
ghost use Rattle.reply_print.specs.ReplyShape.{opened_shape as opened_is, moved_shape as moved_is, listed_shape as listed_is, ordered_shape as ordered_is, paid_shape as paid_is, settled_shape as settled_is, balance_shape as balance_is, refused_shape as refused_is, has_its_field, shape_by as shape_is};

use crate::cleared_shape::cleared_shape;
use crate::look::{has_at, has_members, has_text, has_whole, has_word, is_list, number_at};
use crate::words::reason;
use limits::MAX_REFUSAL;
use serde_json::Value;

fn opened_shape(value: &Value) -> bool
    ensures { result ≡ opened_is (view value.now) }
{
    has_members(value, 3) && has_whole(value, "account") && has_whole(value, "line")
}

// Deposited and withdrawn.
fn moved_shape(value: &Value) -> bool
    ensures { result ≡ moved_is (view value.now) }
{
    has_members(value, 4)
        && has_whole(value, "account")
        && has_text(value, "balance")
        && has_whole(value, "line")
}

fn listed_shape(value: &Value) -> bool
    ensures { result ≡ listed_is (view value.now) }
{
    has_members(value, 4)
        && has_whole(value, "line")
        && has_whole(value, "market")
        && has_whole(value, "underlyings")
}

// Placed and cancelled.
fn ordered_shape(value: &Value) -> bool
    ensures { result ≡ ordered_is (view value.now) }
{
    has_members(value, 3) && has_whole(value, "line") && has_whole(value, "order")
}

fn paid_shape(value: &Value) -> bool
    ensures { result ≡ paid_is (view value.now) }
{
    has_members(value, 4)
        && has_whole(value, "account")
        && has_text(value, "amount")
        && has_whole(value, "batch")
        && has_whole(value, "order")
}

fn are_payouts(value: &Value) -> bool
    ensures { result ≡ list_passes paid_is (view value.now) }
{
    is_list(value, paid_shape)
}

fn settled_shape(value: &Value) -> bool
    ensures { result ≡ settled_is (view value.now) }
{
    has_members(value, 5)
        && has_whole(value, "lapsed")
        && has_whole(value, "line")
        && has_whole(value, "market")
        && has_at(value, "payouts", are_payouts)
}

fn balance_shape(value: &Value) -> bool
    ensures { result ≡ balance_is (view value.now) }
{
    has_members(value, 5)
        && has_whole(value, "account")
        && has_text(value, "balance")
        && has_whole(value, "line")
        && has_text(value, "reserved")
}

fn has_field(value: &Value, is_range: bool) -> bool
    ensures { result ≡ has_its_field is_range (view value.now) }
{
    if is_range {
        has_members(value, 5) && has_whole(value, "field")
    } else {
        has_members(value, 4)
    }
}

fn refused_shape(value: &Value) -> bool
    ensures { result ≡ refused_is (view value.now) }
{
    let number = number_at(value, "number");
    has_field(value, number == 8)
        && has_whole(value, "line")
        && 1 <= number
        && number <= MAX_REFUSAL
        && has_word(value, "reason", reason(number as u32))
}

/// Whether the value has the shape of the reply that this word names.
pub fn has_shape(value: &Value, word: &str) -> bool
    ensures { result ≡ shape_is word.now (view value.now) }
{
    if word == "opened" {
        opened_shape(value)
    } else if word == "deposited" || word == "withdrawn" {
        moved_shape(value)
    } else if word == "listed" {
        listed_shape(value)
    } else if word == "placed" || word == "cancelled" {
        ordered_shape(value)
    } else if word == "cleared" {
        cleared_shape(value)
    } else if word == "settled" {
        settled_shape(value)
    } else if word == "balance" {
        balance_shape(value)
    } else if word == "refused" {
        refused_shape(value)
    } else {
        false
    }
}
