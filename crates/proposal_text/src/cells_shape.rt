//! The shape of a cover by cells, and whether its texts are numbers.
ghost use Rattle.std.specs.Prelude.{◌≡◌, true};
ghost use Rattle.serde_json.specs.View.{items_view, view};
ghost use Rattle.reply_print.specs.Look.{is_list as list_passes, is_whole as whole_number};
ghost use Rattle.proposal_text.specs.CellReading.{are_in_turn as items_are_in_turn, are_multipliers as multipliers_are, bound_shape as bound_is, cell_numbers as cell_is_numbered, cell_shape as cell_is, cells_numbers as cells_are_numbered, cells_shape as cells_are, is_class_or_fraction as is_either, kind_of, leaf_shape as leaf_is, multiplier_numbers_at as numbers_at, split_shape as split_is};

use reply_print::cleared_numbers::is_fraction_text;
use reply_print::look::{has_at, has_members, has_whole, is_list, is_text, is_whole};
use serde_json::Value;

// Whether the value is a class, or else the text of a multiplier.
fn is_of_kind(value: &Value, is_class: bool) -> bool
    ensures { result ≡ kind_of is_class (view value.now) }
{
    if is_class {
        is_whole(value)
    } else {
        is_text(value)
    }
}

// Whether the items are classes and multipliers in turn.
fn are_in_turn(items: &[Value]) -> bool
    ensures { result ≡ items_are_in_turn true (items_view items.now) }
{
    let mut is_class = true;
    for item in items {
        if !is_of_kind(item, is_class) {
            return false;
        }
        is_class = !is_class;
    }
    is_class
}

fn are_multipliers(value: &Value) -> bool
    ensures { result ≡ multipliers_are (view value.now) }
{
    match value.as_array() {
        Some(items) => are_in_turn(items),
        None => false,
    }
}

fn are_wholes(value: &Value) -> bool
    ensures { result ≡ list_passes whole_number (view value.now) }
{
    is_list(value, is_whole)
}

fn split_shape(value: &Value) -> bool
    ensures { result ≡ split_is (view value.now) }
{
    has_members(value, 1) && has_whole(value, "split")
}

fn bound_shape(value: &Value) -> bool
    ensures { result ≡ bound_is (view value.now) }
{
    has_members(value, 3)
        && has_whole(value, "bound")
        && has_at(value, "minus", are_multipliers)
        && has_at(value, "plus", are_multipliers)
}

fn leaf_shape(value: &Value) -> bool
    ensures { result ≡ leaf_is (view value.now) }
{
    has_at(value, "leaf", are_multipliers)
        && (has_members(value, 1) || (has_members(value, 2) && has_at(value, "full", are_wholes)))
}

fn cell_shape(value: &Value) -> bool
    ensures { result ≡ cell_is (view value.now) }
{
    split_shape(value) || bound_shape(value) || leaf_shape(value)
}

fn are_cells(value: &Value) -> bool
    ensures { result ≡ list_passes cell_is (view value.now) }
{
    is_list(value, cell_shape)
}

// Whether the value is an object with a list of nodes.
pub(crate) fn cells_shape(value: &Value) -> bool
    ensures { result ≡ cells_are (view value.now) }
{
    has_members(value, 1) && has_at(value, "cells", are_cells)
}

fn is_class_or_fraction(value: &Value) -> bool
    ensures { result ≡ is_either (view value.now) }
{
    is_whole(value) || is_fraction_text(value)
}

fn are_classes_or_fractions(value: &Value) -> bool
    ensures { result ≡ list_passes is_either (view value.now) }
{
    is_list(value, is_class_or_fraction)
}

// Whether the multipliers at a key, if there are any, are numbers.
fn multiplier_numbers_at(value: &Value, key: &str) -> bool
    ensures { result ≡ numbers_at key.now (view value.now) }
{
    match value.get(key) {
        Some(found) => are_classes_or_fractions(found),
        None => true,
    }
}

fn cell_numbers(value: &Value) -> bool
    ensures { result ≡ cell_is_numbered (view value.now) }
{
    multiplier_numbers_at(value, "leaf")
        && multiplier_numbers_at(value, "minus")
        && multiplier_numbers_at(value, "plus")
}

fn are_numbered(value: &Value) -> bool
    ensures { result ≡ list_passes cell_is_numbered (view value.now) }
{
    is_list(value, cell_numbers)
}

// Whether the texts of the nodes are numbers. The value has the shape of cells.
pub(crate) fn cells_numbers(value: &Value) -> bool
    ensures { result ≡ cells_are_numbered (view value.now) }
{
    has_at(value, "cells", are_numbered)
}
