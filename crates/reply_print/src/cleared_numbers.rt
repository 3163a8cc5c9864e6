//! Whether the texts of a cleared line are numbers.
ghost use Rattle.std.specs.Prelude.{◌≡◌};
ghost use Rattle.serde_json.specs.View.{view};
ghost use Rattle.reply_print.specs.Look.{has_at as passes_at, is_list as list_passes};
ghost use Rattle.reply_print.specs.NumberTexts.{is_whole_number as whole_is, is_fraction as fraction_is, point_numbers as point_is, multiplier_numbers as multiplier_is, node_numbers as node_is, cover_numbers as cover_is, certificate_numbers as certificate_is, wide_numbers as wide_is, mark_numbers as mark_is, cleared_numbers as cleared_is};

use crate::fraction_texts::is_fraction;
use crate::look::{has_at, is_list, is_whole_text, is_word, word_at};
use serde_json::Value;

/// Whether the value is the text of a fraction.
pub fn is_fraction_text(value: &Value) -> bool
    ensures { result ≡ fraction_is (view value.now) }
{
    match value.as_str() {
        Some(text) => is_fraction(text.as_bytes()),
        None => false,
    }
}

/// Whether there is the text of a fraction at a key.
pub fn has_fraction(value: &Value, key: &str) -> bool
    ensures { result ≡ passes_at key.now fraction_is (view value.now) }
{
    has_at(value, key, is_fraction_text)
}

/// Whether the value is a list of texts of whole numbers.
pub fn are_entries(value: &Value) -> bool
    ensures { result ≡ list_passes whole_is (view value.now) }
{
    is_list(value, is_whole_text)
}

fn point_numbers(value: &Value) -> bool
    ensures { result ≡ point_is (view value.now) }
{
    has_at(value, "state", are_entries) && has_fraction(value, "weight")
}

/// Whether the texts of a measure's points are numbers. The value has their shape.
pub fn are_points(value: &Value) -> bool
    ensures { result ≡ list_passes point_is (view value.now) }
{
    is_list(value, point_numbers)
}

fn multiplier_numbers(value: &Value) -> bool
    ensures { result ≡ multiplier_is (view value.now) }
{
    has_fraction(value, "by")
}

fn are_multipliers(value: &Value) -> bool
    ensures { result ≡ list_passes multiplier_is (view value.now) }
{
    is_list(value, multiplier_numbers)
}

fn node_numbers(value: &Value) -> bool
    ensures { result ≡ node_is (view value.now) }
{
    has_at(value, "leaf", are_multipliers) || value.get("split").is_some()
}

fn are_nodes(value: &Value) -> bool
    ensures { result ≡ list_passes node_is (view value.now) }
{
    is_list(value, node_numbers)
}

/// Whether the texts of a cover's multipliers are numbers. The value has its shape.
pub fn cover_numbers(value: &Value) -> bool
    ensures { result ≡ cover_is (view value.now) }
{
    is_word(value, "line") || are_nodes(value)
}

/// Whether the texts of a certificate are numbers where they should be. The value has its shape.
pub fn certificate_numbers(value: &Value) -> bool
    ensures { result ≡ certificate_is (view value.now) }
{
    has_at(value, "cover", cover_numbers) && has_at(value, "measure", are_points)
}

fn wide_numbers(value: &Value) -> bool
    ensures { result ≡ wide_is (view value.now) }
{
    has_fraction(value, "left") && has_fraction(value, "right")
}

fn mark_numbers(value: &Value, word: &str) -> bool
    ensures { result ≡ mark_is word.now (view value.now) }
{
    if word == "optimal" {
        has_at(value, "certificate", certificate_numbers)
    } else if word == "wide" {
        has_at(value, "wide", wide_numbers)
    } else {
        true
    }
}

/// Whether the value is a list of texts of fractions.
pub fn are_fills(value: &Value) -> bool
    ensures { result ≡ list_passes fraction_is (view value.now) }
{
    is_list(value, is_fraction_text)
}

pub(crate) fn cleared_numbers(value: &Value) -> bool
    ensures { result ≡ cleared_is (view value.now) }
{
    mark_numbers(value, word_at(value, "mark"))
        && has_at(value, "fills", are_fills)
        && has_fraction(value, "liability")
        && has_fraction(value, "surplus")
}
