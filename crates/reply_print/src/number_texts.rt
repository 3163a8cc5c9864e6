//! Whether the texts of a line that should be numbers are.
ghost use Rattle.std.specs.Prelude.{◌≡◌};
ghost use Rattle.serde_json.specs.View.{view};
ghost use Rattle.reply_print.specs.Look.{is_list as list_passes};
ghost use Rattle.reply_print.specs.NumberTexts.{paid_numbers as paid_is_numbered, numbers_by as numbers_are};

use crate::cleared_numbers::cleared_numbers;
use crate::look::{has_at, has_whole_text, is_list};
use serde_json::Value;

fn paid_numbers(value: &Value) -> bool
    ensures { result ≡ paid_is_numbered (view value.now) }
{
    has_whole_text(value, "amount")
}

fn are_paid(value: &Value) -> bool
    ensures { result ≡ list_passes paid_is_numbered (view value.now) }
{
    is_list(value, paid_numbers)
}

/// Whether the texts of the reply that this word names are numbers where they should be. The value
/// has its shape.
pub fn has_numbers(value: &Value, word: &str) -> bool
    ensures { result ≡ numbers_are word.now (view value.now) }
{
    if word == "deposited" || word == "withdrawn" {
        has_whole_text(value, "balance")
    } else if word == "cleared" {
        cleared_numbers(value)
    } else if word == "settled" {
        has_at(value, "payouts", are_paid)
    } else if word == "balance" {
        has_whole_text(value, "balance") && has_whole_text(value, "reserved")
    } else {
        true
    }
}
