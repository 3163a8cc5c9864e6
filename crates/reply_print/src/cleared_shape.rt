//! The shape of a cleared line.
ghost use Rattle.std.specs.Prelude.{◌≡◌, ◌&&◌, codes, false, true};
ghost use Rattle.serde_json.specs.View.{view};
ghost use Rattle.reply_print.specs.ClearedShape.{is_form as form_is, leg_shape as leg_is, are_legs as legs_are, is_state as state_is, bundle_shape as bundle_is, is_side as side_is, order_shape as order_is, point_shape as point_is, multiplier_shape as multiplier_is, node_shape as node_is, cover_shape as cover_is, certificate_shape as certificate_is, is_operator as operator_is, wide_shape as wide_is, mark_shape as mark_is, orders_shape as orders_are, cleared_shape as cleared_is};
ghost use Rattle.reply_print.specs.Look.{has_at as passes_at, is_list as list_passes, is_whole as whole_number, is_text as text_value};

use crate::look::{
    has_at, has_members, has_text, has_whole, is_list, is_list_of, is_text, is_whole, is_word,
    number_at, word_at,
};
use form::{MAX_LEGS, MAX_UNDERLYINGS};
use serde_json::Value;

// The most entries of an option or a state: one more than the underlyings.
const MAX_ENTRIES: usize = MAX_UNDERLYINGS as usize + 1;

// The most legs of a bundle.
const MOST_LEGS: usize = MAX_LEGS as usize;

fn is_form(value: &Value) -> bool
    ensures { result ≡ form_is (view value.now) }
{
    is_list_of(value, 2, MAX_ENTRIES, is_whole)
}

fn leg_shape(value: &Value) -> bool
    ensures { result ≡ leg_is (view value.now) }
{
    has_members(value, 2) && has_whole(value, "count") && has_at(value, "form", is_form)
}

/// Whether the value is a list of 1 to 4 legs.
pub fn are_legs(value: &Value) -> bool
    ensures { result ≡ legs_are (view value.now) }
{
    is_list_of(value, 1, MOST_LEGS, leg_shape)
}

fn bundle_shape(value: &Value, single: bool) -> bool
    ensures { result ≡ bundle_is single (view value.now) }
{
    if single {
        has_at(value, "form", is_form)
    } else {
        has_at(value, "legs", are_legs)
    }
}

/// Whether the value is the word of a side.
pub fn is_side(value: &Value) -> bool
    ensures { result ≡ side_is (view value.now) }
{
    is_word(value, "buy") || is_word(value, "sell")
}

fn order_shape(value: &Value, single: bool) -> bool
    ensures { result ≡ order_is single (view value.now) }
{
    has_members(value, 6)
        && has_whole(value, "account")
        && bundle_shape(value, single)
        && has_whole(value, "order")
        && has_whole(value, "price")
        && has_whole(value, "quantity")
        && has_at(value, "side", is_side)
}

fn is_single_order(value: &Value) -> bool
    ensures { result ≡ order_is true (view value.now) }
{
    order_shape(value, true)
}

fn is_bundle_order(value: &Value) -> bool
    ensures { result ≡ order_is false (view value.now) }
{
    order_shape(value, false)
}

/// Whether the value is a list of orders: with a form where `single`, and else with legs.
pub fn are_orders(value: &Value, single: bool) -> bool
    ensures { result ≡ list_passes (order_is single) (view value.now) }
{
    if single {
        is_list(value, is_single_order)
    } else {
        is_list(value, is_bundle_order)
    }
}

/// Whether the value is a list of texts.
pub fn are_texts(value: &Value) -> bool
    ensures { result ≡ list_passes text_value (view value.now) }
{
    is_list(value, is_text)
}

/// Whether the value is a list of 2 to 9 texts, as a state is.
pub fn is_state(value: &Value) -> bool
    ensures { result ≡ state_is (view value.now) }
{
    is_list_of(value, 2, MAX_ENTRIES, is_text)
}

fn point_shape(value: &Value) -> bool
    ensures { result ≡ point_is (view value.now) }
{
    has_members(value, 2) && has_at(value, "state", is_state) && has_text(value, "weight")
}

/// Whether the value is a list of points of a measure: a state and a weight each.
pub fn are_points(value: &Value) -> bool
    ensures { result ≡ list_passes point_is (view value.now) }
{
    is_list(value, point_shape)
}

fn multiplier_shape(value: &Value) -> bool
    ensures { result ≡ multiplier_is (view value.now) }
{
    has_members(value, 2) && has_whole(value, "at") && has_text(value, "by")
}

fn are_multipliers(value: &Value) -> bool
    ensures { result ≡ list_passes multiplier_is (view value.now) }
{
    is_list(value, multiplier_shape)
}

fn node_shape(value: &Value) -> bool
    ensures { result ≡ node_is (view value.now) }
{
    has_members(value, 1) && (has_whole(value, "split") || has_at(value, "leaf", are_multipliers))
}

fn are_nodes(value: &Value) -> bool
    ensures { result ≡ list_passes node_is (view value.now) }
{
    is_list(value, node_shape)
}

/// Whether the value is the word "line" or a list of nodes.
pub fn cover_shape(value: &Value) -> bool
    ensures { result ≡ cover_is (view value.now) }
{
    is_word(value, "line") || are_nodes(value)
}

/// Whether the value has the shape of a certificate.
pub fn certificate_shape(value: &Value) -> bool
    ensures { result ≡ certificate_is (view value.now) }
{
    has_members(value, 2)
        && has_at(value, "cover", cover_shape)
        && has_at(value, "measure", are_points)
}

fn is_operator(value: &Value) -> bool
    ensures { result ≡ operator_is (view value.now) }
{
    is_word(value, "add")
        || is_word(value, "mul")
        || is_word(value, "div")
        || is_word(value, "whole")
}

fn wide_shape(value: &Value) -> bool
    ensures { result ≡ wide_is (view value.now) }
{
    has_members(value, 3)
        && has_text(value, "left")
        && has_at(value, "operator", is_operator)
        && has_text(value, "right")
}

fn mark_shape(value: &Value, word: &str) -> bool
    ensures { result ≡ mark_is word.now (view value.now) }
{
    if word == "optimal" {
        has_members(value, 13) && has_at(value, "certificate", certificate_shape)
    } else if word == "wide" {
        has_members(value, 13) && has_at(value, "wide", wide_shape)
    } else {
        word == "budget" && has_members(value, 12)
    }
}

fn orders_shape(value: &Value, version: u64) -> bool
    ensures { result ≡ orders_are version (view value.now) }
{
    let single = version == 1;
    (single || version == 2)
        && matches!(value.get("orders"), Some(orders) if are_orders(orders, single))
}

fn amounts_shape(value: &Value) -> bool
    ensures { result ≡ (passes_at (codes "surplus") text_value (view value.now)
        && (passes_at (codes "underlyings") whole_number (view value.now)
        && passes_at (codes "units") whole_number (view value.now))) }
{
    has_text(value, "surplus") && has_whole(value, "underlyings") && has_whole(value, "units")
}

pub(crate) fn cleared_shape(value: &Value) -> bool
    ensures { result ≡ cleared_is (view value.now) }
{
    mark_shape(value, word_at(value, "mark"))
        && has_whole(value, "batch")
        && has_at(value, "fills", are_texts)
        && has_text(value, "liability")
        && has_whole(value, "line")
        && has_whole(value, "market")
        && orders_shape(value, number_at(value, "version"))
        && amounts_shape(value)
}
