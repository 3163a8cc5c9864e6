// The shapes of the replies, and whether their texts are numbers.
ghost use Rattle.std.specs.Prelude.{◌≡◌};
ghost use Rattle.serde_json.specs.View.{view};
ghost use Rattle.reply_print.specs.Look.{is_list as list_passes};
ghost use Rattle.proposal_text.specs.ReplyShapes.{are_orders as orders_are, barred_shape as barred_is, book_shape as book_is, bounded_shape as bounded_is, closed_shape as closed_is, counts_shape as counts_are, is_failed as failed_is, is_stop as stop_is, is_tried_mark as tried_mark_is, is_truth as truth_is, needs_numbers as needs_is_numbered, needs_shape as needs_is, plain_refused_shape as plain_refused_is, position_numbers as position_is_numbered, position_shape as position_is, positions_shape as positions_are, proposed_numbers as proposed_is_numbered, proposed_shape as proposed_is, refused_numbers as refused_is_numbered, refused_shape as refused_is, reopened_shape as reopened_is, secured_shape as secured_is, tried_numbers as tried_is_numbered, tried_shape as tried_is, uncovered_shape as uncovered_is, unproved_shape as unproved_is};

use crate::needs::is_need;
use crate::submission_text::proposal_shape;
use reply_print::cleared_numbers::has_fraction;
use reply_print::cleared_shape::{are_legs, are_orders, is_side};
use reply_print::look::{
    has_at, has_members, has_text, has_whole, has_whole_text, has_word, is_list, is_word, number_at,
};
use serde_json::Value;

fn has_orders(value: &Value) -> bool
    ensures { result ≡ orders_are (view value.now) }
{
    matches!(value.get("orders"), Some(orders) if are_orders(orders, false))
}

pub(crate) fn book_shape(value: &Value) -> bool
    ensures { result ≡ book_is (view value.now) }
{
    has_members(value, 5)
        && has_whole(value, "line")
        && has_whole(value, "market")
        && has_orders(value)
        && has_whole(value, "underlyings")
}

fn position_shape(value: &Value) -> bool
    ensures { result ≡ position_is (view value.now) }
{
    has_members(value, 5)
        && has_whole(value, "batch")
        && has_text(value, "fill")
        && has_at(value, "legs", are_legs)
        && has_whole(value, "order")
        && has_at(value, "side", is_side)
}

fn are_positions(value: &Value) -> bool
    ensures { result ≡ list_passes position_is (view value.now) }
{
    is_list(value, position_shape)
}

pub(crate) fn positions_shape(value: &Value) -> bool
    ensures { result ≡ positions_are (view value.now) }
{
    has_members(value, 5)
        && has_whole(value, "account")
        && has_whole(value, "line")
        && has_whole(value, "market")
        && has_at(value, "positions", are_positions)
}

pub(crate) fn proposed_shape(value: &Value) -> bool
    ensures { result ≡ proposed_is (view value.now) }
{
    has_members(value, 7)
        && has_text(value, "best_surplus")
        && has_text(value, "bound")
        && has_text(value, "least_bound")
        && has_whole(value, "line")
        && has_whole(value, "market")
        && has_text(value, "surplus")
}

fn is_stop(value: &Value) -> bool
    ensures { result ≡ stop_is (view value.now) }
{
    is_word(value, "wide") || is_word(value, "budget")
}

fn counts_shape(value: &Value) -> bool
    ensures { result ≡ counts_are (view value.now) }
{
    has_whole(value, "batch")
        && has_whole(value, "line")
        && has_whole(value, "market")
        && has_whole(value, "underlyings")
        && has_whole(value, "units")
}

pub(crate) fn bounded_shape(value: &Value) -> bool
    ensures { result ≡ bounded_is (view value.now) }
{
    number_at(value, "version") == 3
        && has_members(value, 15)
        && proposal_shape(value)
        && has_text(value, "bound")
        && has_word(value, "mark", "bounded")
        && has_at(value, "run", is_stop)
        && has_orders(value)
        && counts_shape(value)
}

fn is_failed(value: &Value) -> bool
    ensures { result ≡ failed_is (view value.now) }
{
    is_word(value, "BatchShape")
        || is_word(value, "Fill")
        || is_word(value, "Cover")
        || is_word(value, "Measure")
        || is_word(value, "Wide")
}

pub(crate) fn closed_shape(value: &Value) -> bool
    ensures { result ≡ closed_is (view value.now) }
{
    has_members(value, 4)
        && has_whole(value, "line")
        && has_whole(value, "market")
        && has_whole(value, "orders")
}

pub(crate) fn reopened_shape(value: &Value) -> bool
    ensures { result ≡ reopened_is (view value.now) }
{
    has_members(value, 3) && has_whole(value, "line") && has_whole(value, "market")
}

// A refusal of which nothing more is told.
fn plain_refused_shape(value: &Value, reason: &str) -> bool
    ensures { result ≡ plain_refused_is reason.now (view value.now) }
{
    has_members(value, 4) && has_whole(value, "line") && has_word(value, "reason", reason)
}

fn unproved_shape(value: &Value) -> bool
    ensures { result ≡ unproved_is (view value.now) }
{
    has_members(value, 5)
        && has_at(value, "failed", is_failed)
        && has_whole(value, "line")
        && has_word(value, "reason", "Unproved")
}

pub(crate) fn secured_shape(value: &Value) -> bool
    ensures { result ≡ secured_is (view value.now) }
{
    has_members(value, 4)
        && has_whole(value, "account")
        && has_whole(value, "line")
        && has_text(value, "need")
}

fn is_truth(value: &Value) -> bool
    ensures { result ≡ truth_is (view value.now) }
{
    value.is_boolean()
}

pub(crate) fn needs_shape(value: &Value) -> bool
    ensures { result ≡ needs_is (view value.now) }
{
    has_members(value, 6)
        && has_whole(value, "account")
        && has_text(value, "balance")
        && has_whole(value, "line")
        && has_text(value, "need")
        && has_at(value, "secured", is_truth)
}

// A refusal for want of what an account needs.
fn uncovered_shape(value: &Value) -> bool
    ensures { result ≡ uncovered_is (view value.now) }
{
    has_members(value, 5)
        && has_whole(value, "line")
        && has_text(value, "need")
        && has_word(value, "reason", "Margin")
}

fn is_tried_mark(value: &Value) -> bool
    ensures { result ≡ tried_mark_is (view value.now) }
{
    is_word(value, "optimal") || is_stop(value)
}

pub(crate) fn tried_shape(value: &Value) -> bool
    ensures { result ≡ tried_is (view value.now) }
{
    has_members(value, 6)
        && has_text(value, "fill")
        && has_whole(value, "line")
        && has_at(value, "mark", is_tried_mark)
        && has_whole(value, "market")
        && has_text(value, "surplus")
}

// A refusal to whoever sent the line.
fn barred_shape(value: &Value, number: u64) -> bool
    ensures { result ≡ barred_is number (view value.now) }
{
    if number == 25 {
        plain_refused_shape(value, "NotAllowed")
    } else if number == 26 {
        plain_refused_shape(value, "NotAsked")
    } else {
        number == 27 && plain_refused_shape(value, "Quota")
    }
}

pub(crate) fn refused_shape(value: &Value, number: u64) -> bool
    ensures { result ≡ refused_is number (view value.now) }
{
    if number == 14 {
        uncovered_shape(value)
    } else if number == 20 {
        plain_refused_shape(value, "Stale")
    } else if number == 21 {
        unproved_shape(value)
    } else if number == 23 {
        plain_refused_shape(value, "Closed")
    } else if number == 24 {
        plain_refused_shape(value, "Open")
    } else {
        barred_shape(value, number)
    }
}

fn position_numbers(value: &Value) -> bool
    ensures { result ≡ position_is_numbered (view value.now) }
{
    has_fraction(value, "fill")
}

pub(crate) fn are_numbered(value: &Value) -> bool
    ensures { result ≡ list_passes position_is_numbered (view value.now) }
{
    is_list(value, position_numbers)
}

pub(crate) fn proposed_numbers(value: &Value) -> bool
    ensures { result ≡ proposed_is_numbered (view value.now) }
{
    has_fraction(value, "best_surplus")
        && has_fraction(value, "bound")
        && has_fraction(value, "least_bound")
        && has_fraction(value, "surplus")
}

pub(crate) fn needs_numbers(value: &Value) -> bool
    ensures { result ≡ needs_is_numbered (view value.now) }
{
    has_whole_text(value, "balance") && has_at(value, "need", is_need)
}

pub(crate) fn tried_numbers(value: &Value) -> bool
    ensures { result ≡ tried_is_numbered (view value.now) }
{
    has_fraction(value, "fill") && has_fraction(value, "surplus")
}

pub(crate) fn refused_numbers(value: &Value, number: u64) -> bool
    ensures { result ≡ refused_is_numbered number (view value.now) }
{
    if number == 14 {
        has_at(value, "need", is_need)
    } else {
        true
    }
}
