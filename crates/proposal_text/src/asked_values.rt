// What is taken out of a line, where it is within its ranges.
ghost use Rattle.std.specs.Prelude.{◌≡◌, IfOk, codes, option_map};
ghost use Rattle.serde_json.specs.View.{view};
ghost use Rattle.proposal_text.specs.declared.margins.ToldMargin.TheVariants as told;
ghost use Rattle.reply_text.specs.OutcomeValues.{state_at as state_found};
ghost use Rattle.proposal_text.specs.AskedValues.{least_from as least_found, margin_from as margin_found, price_at as price_found, price_by as price_named, priced_from as priced_found, quoted_from as quoted_found, told_by as told_found};

use crate::margins::ToldMargin;
use crate::needs::size_at;
use crate::prices::QuotedPrice;
use crate::replies::ProposalReply;
use form::{MAX_PRICE, MAX_QUANTITY};
use reply_print::look::word_at;
use reply_text::certificate_values::{fraction_at, state_at};
use reply_text::taking::{account_at, market_at, natural_at};
use serde_json::Value;
use std::alloc::{AllocError, Global};

fn price_by(value: &Value, key: &str, word: &str) -> Option<QuotedPrice>
    ensures { result ≡ price_named word.now key.now (view value.now) }
{
    if word == "never" {
        Some(QuotedPrice::Never)
    } else if word == "unmarked" {
        Some(QuotedPrice::Unmarked)
    } else {
        let price = size_at(value, key, u128::from(MAX_PRICE))?;
        Some(QuotedPrice::At {
            price: price as u64,
        })
    }
}

fn price_at(value: &Value, key: &str) -> Option<QuotedPrice>
    ensures { result ≡ price_found key.now (view value.now) }
{
    price_by(value, key, word_at(value, key))
}

pub(crate) fn quoted_from(value: &Value) -> Option<ProposalReply>
    ensures { result ≡ quoted_found (view value.now) }
{
    let market = market_at(value)?;
    let bid = price_at(value, "bid")?;
    let ask = price_at(value, "ask")?;
    Some(ProposalReply::Quoted { market, bid, ask })
}

pub(crate) fn priced_from(value: &Value) -> Option<ProposalReply>
    ensures { result ≡ priced_found (view value.now) }
{
    let market = market_at(value)?;
    let quantity = natural_at(value, 1, u64::from(MAX_QUANTITY), "quantity")? as u32;
    let ask = price_at(value, "ask")?;
    let bid = price_at(value, "bid")?;
    Some(ProposalReply::Priced {
        market,
        quantity,
        ask,
        bid,
    })
}

fn least_from(alloc: Global, value: &Value) -> Result<Option<ToldMargin>, AllocError>
    ensures { IfOk result (λ o. o ≡ least_found (view value.now)) }
{
    let Some(liability) = fraction_at(value, "margin") else {
        return Ok(None);
    };
    let Some(at) = state_at(alloc, value, "at")? else {
        return Ok(None);
    };
    Ok(Some(ToldMargin::Least { liability, at }))
}

fn unbounded_from(alloc: Global, value: &Value) -> Result<Option<ToldMargin>, AllocError>
    ensures { IfOk result (λ o. o
        ≡ option_map told.Unbounded (state_found (codes "at") (view value.now))) }
{
    let Some(ray) = state_at(alloc, value, "at")? else {
        return Ok(None);
    };
    Ok(Some(ToldMargin::Unbounded { ray }))
}

fn told_by(alloc: Global, value: &Value, word: &str) -> Result<Option<ToldMargin>, AllocError>
    ensures { IfOk result (λ o. o ≡ told_found word.now (view value.now)) }
{
    if word == "wide" {
        Ok(Some(ToldMargin::Wide))
    } else if word == "budget" {
        Ok(Some(ToldMargin::Budget))
    } else if word == "unbounded" {
        unbounded_from(alloc, value)
    } else {
        least_from(alloc, value)
    }
}

pub(crate) fn margin_from(alloc: Global, value: &Value) -> Result<Option<ProposalReply>, AllocError>
    ensures { IfOk result (λ o. o ≡ margin_found (view value.now)) }
{
    let Some(account) = account_at(value) else {
        return Ok(None);
    };
    let Some(market) = market_at(value) else {
        return Ok(None);
    };
    let Some(margin) = told_by(alloc, value, word_at(value, "margin"))? else {
        return Ok(None);
    };
    Ok(Some(ProposalReply::Margin {
        account,
        market,
        margin,
    }))
}
