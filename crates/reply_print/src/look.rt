//! Looking into the value of a line.
ghost use Rattle.std.specs.Prelude.{◌≡◌, Bool};
ghost use Rattle.std.specs.List.{list_all};
ghost use Rattle.serde_json.specs.Data.{Data};
ghost use Rattle.serde_json.specs.View.{view};
ghost use Rattle.reply_print.specs.Look.{Decides, has_members as members_are, has_at as passes_at, is_list as list_passes, is_list_of as list_passes_of, length_between, is_whole as whole_number, is_text as text_value, is_word as word_is, word_at as word_found, number_at as number_found};
ghost use Rattle.reply_print.specs.NumberTexts.{is_whole_number as whole_text};

use crate::numbers;
use serde_json::Value;

/// Whether the value is an object with this many members.
pub fn has_members(value: &Value, count: usize) -> bool
    ensures { result ≡ members_are count (view value.now) }
{
    match value.as_object() {
        Some(map) => map.len() == count,
        None => false,
    }
}

/// Whether the key is there, and its value passes a test.
pub fn has_at(value: &Value, key: &str, passes: fn(&Value) -> bool) -> bool
    requires { IsAlwaysCallable passes }
    ensures { (test : Data → Bool) → Decides (post passes) test
        → result ≡ passes_at key.now test (view value.now) }
{
    match value.get(key) {
        Some(found) => passes(found),
        None => false,
    }
}

fn all_pass(items: &[Value], passes: fn(&Value) -> bool) -> bool
    requires { IsAlwaysCallable passes }
    ensures { (test : Data → Bool) → Decides (post passes) test
        → result ≡ list_all (λ item. test (view item)) items.now }
{
    items.iter().all(passes)
}

/// Whether the value is a list whose items pass a test.
pub fn is_list(value: &Value, passes: fn(&Value) -> bool) -> bool
    requires { IsAlwaysCallable passes }
    ensures { (test : Data → Bool) → Decides (post passes) test
        → result ≡ list_passes test (view value.now) }
{
    match value.as_array() {
        Some(items) => all_pass(items, passes),
        None => false,
    }
}

fn has_length(value: &Value, low: usize, high: usize) -> bool
    ensures { result ≡ length_between low high (view value.now) }
{
    match value.as_array() {
        Some(items) => {
            if items.len() < low {
                return false;
            }
            items.len() <= high
        }
        None => false,
    }
}

/// The same, with `low` to `high` items.
pub fn is_list_of(value: &Value, low: usize, high: usize, passes: fn(&Value) -> bool) -> bool
    requires { IsAlwaysCallable passes }
    ensures { (test : Data → Bool) → Decides (post passes) test
        → result ≡ list_passes_of low high test (view value.now) }
{
    is_list(value, passes) && has_length(value, low, high)
}

/// Whether the value is a whole number of 64 bits.
pub fn is_whole(value: &Value) -> bool
    ensures { result ≡ whole_number (view value.now) }
{
    if value.is_u64() {
        return true;
    }
    value.is_i64()
}

/// Whether there is a whole number of 64 bits at a key.
pub fn has_whole(value: &Value, key: &str) -> bool
    ensures { result ≡ passes_at key.now whole_number (view value.now) }
{
    has_at(value, key, is_whole)
}

/// Whether the value is a text.
pub fn is_text(value: &Value) -> bool
    ensures { result ≡ text_value (view value.now) }
{
    value.is_string()
}

/// Whether there is a text at a key.
pub fn has_text(value: &Value, key: &str) -> bool
    ensures { result ≡ passes_at key.now text_value (view value.now) }
{
    has_at(value, key, is_text)
}

/// Whether the value is this text.
pub fn is_word(value: &Value, word: &str) -> bool
    ensures { result ≡ word_is word.now (view value.now) }
{
    match value.as_str() {
        Some(text) => word == text,
        None => false,
    }
}

/// Whether there is this text at a key.
pub fn has_word(value: &Value, key: &str, word: &str) -> bool
    ensures { result ≡ passes_at key.now (word_is word.now) (view value.now) }
{
    matches!(value.get(key), Some(found) if is_word(found, word))
}

/// The text at a key, empty where there is none.
pub fn word_at<'a>(value: &'a Value, key: &str) -> &'a str
    ensures { result.now ≡ word_found key.now (view value.now) }
{
    match value.get(key).and_then(Value::as_str) {
        Some(word) => word,
        None => "",
    }
}

/// The natural number at a key, 0 where there is none.
pub fn number_at(value: &Value, key: &str) -> u64
    ensures { result ≡ number_found key.now (view value.now) }
{
    match value.get(key).and_then(Value::as_u64) {
        Some(n) => n,
        None => 0,
    }
}

/// Whether the value is the text of a whole number.
pub fn is_whole_text(value: &Value) -> bool
    ensures { result ≡ whole_text (view value.now) }
{
    match value.as_str() {
        Some(text) => numbers::is_whole(text.as_bytes()),
        None => false,
    }
}

/// Whether there is the text of a whole number at a key.
pub fn has_whole_text(value: &Value, key: &str) -> bool
    ensures { result ≡ passes_at key.now whole_text (view value.now) }
{
    has_at(value, key, is_whole_text)
}
