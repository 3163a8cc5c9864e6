//! The orders and the batch that are taken out of a line, where they are within their ranges.
ghost use Rattle.std.specs.Prelude.{◌≡◌, IfOk};
ghost use Rattle.serde_json.specs.View.{view};
ghost use Rattle.form.specs.BundleOf.{bundle_one};
ghost use Rattle.reply_text.specs.BatchValues.{entry_from as entry_found, listed_form as form_listed, form_at as form_found, count_at as count_found, leg_from as leg_found, bundle_by, bundle_from as bundle_found, side_at as side_found, order_for as order_for_bundle, order_from as order_found};
ghost use Rattle.reply_text.specs.ReplyValues.{batch_from as batch_found, cleared_batch_from as cleared_batch_found};

use crate::taking::{
    ItemReader, account_at, batch_at, list_at, market_at, natural_at, order_at, size_at,
};
use form::{
    Batch, Bundle, Form, Leg, MAX_COUNT, MAX_ORDERS, MAX_PRICE, MAX_QUANTITY, Order, Orders, Side,
    are_legs,
};
use reply_guess::ranges::{has_few_options, has_limits};
use reply_print::look::{is_word, number_at};
use serde_json::Value;
use std::alloc::{AllocError, Global};

// The entries of a form.
struct EntryReader;

impl ItemReader for EntryReader {
    type Item = i64;

    ghost found = { λ _. entry_found };

    fn item_from(&self, _alloc: Global, value: &Value) -> Result<Option<i64>, AllocError> {
        Ok(value.as_i64())
    }
}

fn listed_form(entries: &[i64]) -> Option<Form>
    ensures { result ≡ form_listed entries.now }
{
    if has_limits(entries) {
        Form::from_entries(entries)
    } else {
        None
    }
}

fn form_at(alloc: Global, value: &Value) -> Result<Option<Form>, AllocError>
    ensures { IfOk result (λ o. o ≡ form_found (view value.now)) }
{
    let Some(entries) = list_at(alloc, value, "form", &EntryReader)? else {
        return Ok(None);
    };
    Ok(listed_form(entries.as_slice()))
}

// The count of a leg.
fn count_at(value: &Value) -> Option<i16>
    ensures { result ≡ count_found (view value.now) }
{
    let count = value.get("count").and_then(Value::as_i64)?;
    if count.unsigned_abs() <= u64::from(MAX_COUNT) {
        Some(count as i16)
    } else {
        None
    }
}

// The legs of a bundle.
struct LegReader;

impl ItemReader for LegReader {
    type Item = Leg;

    ghost found = { λ _. leg_found };

    fn item_from(&self, alloc: Global, value: &Value) -> Result<Option<Leg>, AllocError> {
        let Some(count) = count_at(value) else {
            return Ok(None);
        };
        let Some(form) = form_at(alloc, value)? else {
            return Ok(None);
        };
        Ok(Some(Leg { count, form }))
    }
}

fn bundle_by(legs: &[Leg]) -> Option<Bundle>
    ensures { result ≡ bundle_by legs.now }
{
    if are_legs(legs) {
        Some(Bundle::from_legs(legs))
    } else {
        None
    }
}

// The bundle of one option that counts once.
fn one_option(form: Form) -> Bundle
    ensures { result ≡ bundle_one form }
{
    Bundle::one(form)
}

/// The bundle of a value: of its form where `single`, and else of its legs. The only error is want
/// of memory.
pub fn bundle_from(alloc: Global, value: &Value, single: bool) -> Result<Option<Bundle>, AllocError>
    ensures { IfOk result (λ o. o ≡ bundle_found single (view value.now)) }
{
    if single {
        Ok(form_at(alloc, value)?.map(one_option))
    } else {
        let Some(legs) = list_at(alloc, value, "legs", &LegReader)? else {
            return Ok(None);
        };
        Ok(bundle_by(legs.as_slice()))
    }
}

/// The side of a value.
pub fn side_at(value: &Value) -> Option<Side>
    ensures { result ≡ side_found (view value.now) }
{
    let side = value.get("side")?;
    Some(if is_word(side, "sell") {
        Side::Sell
    } else {
        Side::Buy
    })
}

// The order of an account for this bundle.
fn order_for(value: &Value, account: u32, bundle: Bundle) -> Option<Order>
    ensures { result ≡ order_for_bundle account bundle (view value.now) }
{
    let id = order_at(value)?;
    let price = natural_at(value, 0, MAX_PRICE, "price")?;
    let quantity = natural_at(value, 1, u64::from(MAX_QUANTITY), "quantity")? as u32;
    let side = side_at(value)?;
    if !has_few_options(&bundle, quantity) {
        return None;
    }
    Some(Order {
        id,
        account,
        side,
        bundle,
        price,
        quantity,
    })
}

// The orders of a batch: with the form of one option where `single`, and else with legs.
#[derive(Drop)]
struct OrderReader {
    single: bool,
}

impl ItemReader for OrderReader {
    type Item = Order;

    ghost found = { λ reader. order_found reader.single };

    fn item_from(&self, alloc: Global, value: &Value) -> Result<Option<Order>, AllocError> {
        let Some(account) = account_at(value) else {
            return Ok(None);
        };
        let Some(bundle) = bundle_from(alloc, value, self.single)? else {
            return Ok(None);
        };
        Ok(order_for(value, account, bundle))
    }
}

/// The batch of a line. The only error is want of memory.
pub fn batch_from(alloc: Global, value: &Value) -> Result<Option<Batch>, AllocError>
    ensures { IfOk result (λ o. o ≡ batch_found (view value.now)) }
{
    let Some(underlyings) = size_at(value) else {
        return Ok(None);
    };
    let reader = OrderReader {
        single: number_at(value, "version") == 1,
    };
    let Some(orders) = list_at(alloc, value, "orders", &reader)? else {
        return Ok(None);
    };
    if orders.len() > MAX_ORDERS {
        return Ok(None);
    }
    Ok(Some(Batch {
        underlyings,
        orders: Orders::from_vec(orders),
    }))
}

/// A batch as a cleared line tells it: its number, its market and its orders.
#[derive(Drop)]
pub struct ClearedBatch {
    pub number: u32,
    pub market: u32,
    pub batch: Batch,
}

/// The batch of a cleared line, with its number and its market. The only error is want of memory.
pub fn cleared_batch_from(alloc: Global, value: &Value) -> Result<Option<ClearedBatch>, AllocError>
    ensures { IfOk result (λ o. o ≡ cleared_batch_found (view value.now)) }
{
    let Some(number) = batch_at(value) else {
        return Ok(None);
    };
    let Some(market) = market_at(value) else {
        return Ok(None);
    };
    let Some(batch) = batch_from(alloc, value)? else {
        return Ok(None);
    };
    Ok(Some(ClearedBatch {
        number,
        market,
        batch,
    }))
}
