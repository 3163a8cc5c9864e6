//! What is taken out of the value of a line.
ghost use Rattle.std.specs.Prelude.{◌≡◌, ◌≤◌, IfOk, IfSome, Option, codes, option_map};
ghost use Rattle.serde_json.specs.Data.{Data};
ghost use Rattle.serde_json.specs.View.{view, items_view};
ghost use Rattle.reply_print.specs.NumberValues.{whole_value, signed_value};
ghost use Rattle.frac.specs.Range.{limit};
ghost use Rattle.form.specs.declared.limits.TheConstants.{MAX_ORDER};
ghost use Rattle.limits.specs.declared.TheConstants.{MAX_BATCHES};
ghost use Rattle.form.specs.Naturals.{natural_value};
ghost use Rattle.reply_text.specs.BatchValues.{size_within, whole_from};
ghost use Rattle.reply_text.specs.ReplyValues.{account_at as account_found, market_at as market_found, size_at as size_found};
ghost use Rattle.reply_text.specs.Taking.{natural_at as natural_found, take_at, from_to as number_from_to, items_at as items_found, items_map, list_at as list_found};

use form::{MAX_ORDER, MAX_UNDERLYINGS};
use limits::{MAX_ACCOUNT, MAX_BATCHES, MAX_MARKET};
use reply_print::numbers::value_of_digits;
use serde_json::Value;
use std::alloc::{AllocError, Global};

// The number of this size and sign, where the size is at most a bound.
fn signed_within(is_negative: bool, digits: &[u8], bound: u128) -> Option<i128>
    requires { bound ≤ limit }
    ensures { result ≡ size_within bound (signed_value is_negative (natural_value digits.now)) }
{
    let size = value_of_digits(digits);
    if size > bound {
        return None;
    }
    let size = size as i128;
    if is_negative { Some(-size) } else { Some(size) }
}

// The whole number of a text, where its size is at most a bound.
pub(crate) fn whole_within(text: &[u8], bound: u128) -> Option<i128>
    requires { bound ≤ limit }
    ensures { result ≡ size_within bound (whole_value text.now) }
{
    match text {
        [b'-', digits @ ..] => signed_within(true, digits, bound),
        _ => signed_within(false, text, bound),
    }
}

/// The number, where it is from low to high.
pub fn from_to(low: u64, high: u64, n: u64) -> Option<u64>
    ensures value { result ≡ number_from_to low high n }
    ensures within { IfSome result (λ m. m ≤ high) }
{
    if low <= n && n <= high { Some(n) } else { None }
}

/// The natural number at a key, where it is from low to high.
pub fn natural_at(value: &Value, low: u64, high: u64, key: &str) -> Option<u64>
    ensures value { result ≡ natural_found low high key.now (view value.now) }
    ensures within { IfSome result (λ n. n ≤ high) }
{
    let n = value.get(key).and_then(Value::as_u64)?;
    from_to(low, high, n)
}

/// The whole number of the text at a key, where its size is at most a bound.
pub fn whole_at(value: &Value, key: &str, bound: u128) -> Option<i128>
    requires { bound ≤ limit }
    ensures { result ≡ take_at key.now (whole_from bound) (view value.now) }
{
    let text = value.get(key).and_then(Value::as_str)?;
    whole_within(text.as_bytes(), bound)
}

/// The number of an account, from 1.
pub fn account_at(value: &Value) -> Option<u32>
    ensures { result ≡ account_found (view value.now) }
{
    let account = natural_at(value, 1, MAX_ACCOUNT, "account")?;
    Some(account as u32)
}

/// The number of a market.
pub fn market_at(value: &Value) -> Option<u32>
    ensures { result ≡ market_found (view value.now) }
{
    let market = natural_at(value, 1, MAX_MARKET, "market")?;
    Some(market as u32)
}

/// The number of underlyings.
pub fn size_at(value: &Value) -> Option<u8>
    ensures { result ≡ size_found (view value.now) }
{
    let underlyings = natural_at(value, 1, u64::from(MAX_UNDERLYINGS), "underlyings")?;
    Some(underlyings as u8)
}

/// The number of a batch.
pub fn batch_at(value: &Value) -> Option<u32>
    ensures { result ≡ natural_found 1 MAX_BATCHES (codes "batch") (view value.now) }
{
    let batch = natural_at(value, 1, MAX_BATCHES, "batch")?;
    Some(batch as u32)
}

/// The number of an order.
pub fn order_at(value: &Value) -> Option<u64>
    ensures { result ≡ natural_found 1 MAX_ORDER (codes "order") (view value.now) }
{
    natural_at(value, 1, MAX_ORDER, "order")
}

/// The items of the list at a key.
pub fn items_at<'a>(value: &'a Value, key: &str) -> Option<&'a [Value]>
    ensures { option_map (λ items. items_view items.now) result
        ≡ items_found key.now (view value.now) }
{
    let items = value.get(key).and_then(Value::as_array)?;
    Some(items.as_slice())
}

/// What takes the items of a list out of their values.
pub trait ItemReader {
    /// What is taken out of a value.
    type Item: Copy;

    /// What is taken out of a value, where it is within its ranges.
    ghost found: { Self → Data → Option Self.Item };

    /// What is taken out of a value. The only error is want of memory.
    fn item_from(&self, alloc: Global, value: &Value) -> Result<Option<Self::Item>, AllocError>
        ensures { IfOk result (λ o. o ≡ found self.now (view value.now)) };
}

fn items_from<R: ItemReader>(
    alloc: Global,
    items: &[Value],
    reader: &R,
) -> Result<Option<Vec<R::Item>>, AllocError>
    ensures { IfOk result (λ o. option_map (λ v. v.items) o
        ≡ items_map (R.found reader.now) (items_view items.now)) }
{
    let mut taken = Vec::new(alloc);
    for item in items {
        let Some(one) = reader.item_from(alloc, item)? else {
            return Ok(None);
        };
        taken.push(one)?;
    }
    Ok(Some(taken))
}

/// What a reader takes out of each item of the list at a key; `None` where the key is not there,
/// its value is no list, or nothing is taken out of an item. The only error is want of memory.
pub fn list_at<R: ItemReader>(
    alloc: Global,
    value: &Value,
    key: &str,
    reader: &R,
) -> Result<Option<Vec<R::Item>>, AllocError>
    ensures { IfOk result (λ o. option_map (λ v. v.items) o
        ≡ list_found key.now (R.found reader.now) (view value.now)) }
{
    match items_at(value, key) {
        Some(items) => items_from(alloc, items, reader),
        None => Ok(None),
    }
}
