// The replies that are taken out of a line, where they are within their ranges.
ghost use Rattle.std.specs.Prelude.{◌≡◌, IfOk, codes};
ghost use Rattle.exact_num.specs.Tests.{is_not_below_zero};
ghost use Rattle.frac.specs.Value.{fraction_of};
ghost use Rattle.serde_json.specs.Find.{as_bool};
ghost use Rattle.serde_json.specs.View.{view};
ghost use Rattle.reply_text.specs.Taking.{take_at};
ghost use Rattle.proposal_text.specs.ReplyValues.{are_bounds as bounds_are, are_in_order as is_ordered, are_surpluses as surpluses_are, bar_by as bar_named, book_from as book_is, bounded_from as bounded_is, closed_from as closed_is, do_rise, failed_by_word as failed_named, fill_at as fill_found, needs_from as needs_is, outcome_from as outcome_is, part_at as part_found, plain_refusal as plain_refusal_named, position_from as position_is, positions_from as positions_are, proposed_from as proposed_is, refused_by as refused_named, refused_from as refused_is, reopened_from as reopened_is, secured_from as secured_is, stop_by_word as stop_named, stopped_by_word as stopped_named, tried_from as tried_is};

use crate::needs::{need_at, size_at};
use crate::replies::{
    AccountNeed, Bar, BoundedOutcome, FailureKind, Positions, ProposalReply, StopReason, Trial,
};
use crate::submission_text::proposal_from;
use exact_num::Exact;
use form::{MAX_BUDGET, MAX_ORDERS, Order};
use frac::Frac128;
use reply_print::fraction_texts::LIMIT;
use reply_print::look::{number_at, word_at};
use reply_text::batch_values::{batch_from, bundle_from, cleared_batch_from, side_at};
use reply_text::certificate_values::fraction_at;
use reply_text::taking::{
    ItemReader, account_at, batch_at, list_at, market_at, natural_at, order_at, whole_at,
};
use serde_json::Value;
use settlement::Position;
use std::alloc::{AllocError, Global};

// Whether the numbers of the orders rise.
fn are_rising(orders: &[Order]) -> bool
    ensures { result ≡ do_rise orders.now }
{
    orders.is_sorted_by(|order, next| order.id < next.id)
}

pub(crate) fn book_from(alloc: Global, value: &Value) -> Result<Option<ProposalReply>, AllocError>
    ensures { IfOk result (λ o. o ≡ book_is (view value.now)) }
{
    let Some(market) = market_at(value) else {
        return Ok(None);
    };
    let Some(batch) = batch_from(alloc, value)? else {
        return Ok(None);
    };
    if !are_rising(batch.orders.as_slice()) {
        return Ok(None);
    }
    Ok(Some(ProposalReply::Book { market, batch }))
}

// A fill above 0.
fn fill_at(value: &Value) -> Option<Frac128>
    ensures { result ≡ fill_found (view value.now) }
{
    let fill = fraction_at(value, "fill")?;
    if fill.parts().0 < 1 {
        return None;
    }
    Some(fill)
}

// The positions of an account in a market.
#[derive(Drop)]
struct PositionReader {
    account: u32,
    market: u32,
}

impl ItemReader for PositionReader {
    type Item = Position;

    ghost found = { λ reader. position_is reader.account reader.market };

    fn item_from(&self, alloc: Global, value: &Value) -> Result<Option<Position>, AllocError> {
        let Some(batch) = batch_at(value) else {
            return Ok(None);
        };
        let Some(fill) = fill_at(value) else {
            return Ok(None);
        };
        let Some(bundle) = bundle_from(alloc, value, false)? else {
            return Ok(None);
        };
        let Some(order) = order_at(value) else {
            return Ok(None);
        };
        let Some(side) = side_at(value) else {
            return Ok(None);
        };
        Ok(Some(Position {
            market: self.market,
            batch,
            order,
            account: self.account,
            side,
            bundle,
            fill,
        }))
    }
}

pub(crate) fn positions_from(
    alloc: Global,
    value: &Value,
) -> Result<Option<ProposalReply>, AllocError>
    ensures { IfOk result (λ o. o ≡ positions_are (view value.now)) }
{
    let Some(account) = account_at(value) else {
        return Ok(None);
    };
    let Some(market) = market_at(value) else {
        return Ok(None);
    };
    let reader = PositionReader { account, market };
    let Some(positions) = list_at(alloc, value, "positions", &reader)? else {
        return Ok(None);
    };
    Ok(Some(ProposalReply::Positions {
        account,
        market,
        positions: Positions::from_vec(positions),
    }))
}

fn is_not_negative(x: Frac128) -> bool
    ensures { result ≡ is_not_below_zero (fraction_of x) }
{
    x.sign() >= 0
}

// Whether 0 and these do not fall, in this order.
fn are_surpluses(surplus: Frac128, best_surplus: Frac128) -> bool
    ensures { result ≡ surpluses_are (fraction_of surplus) (fraction_of best_surplus) }
{
    is_not_negative(surplus) && surplus <= best_surplus
}

fn are_bounds(best_surplus: Frac128, least_bound: Frac128, bound: Frac128) -> bool
    ensures { result
        ≡ bounds_are (fraction_of best_surplus) (fraction_of least_bound) (fraction_of bound) }
{
    best_surplus <= least_bound && least_bound <= bound
}

fn are_in_order(
    surplus: Frac128,
    best_surplus: Frac128,
    least_bound: Frac128,
    bound: Frac128,
) -> bool
    ensures { result ≡ is_ordered (fraction_of surplus) (fraction_of best_surplus)
        (fraction_of least_bound) (fraction_of bound) }
{
    are_surpluses(surplus, best_surplus) && are_bounds(best_surplus, least_bound, bound)
}

pub(crate) fn proposed_from(value: &Value) -> Option<ProposalReply>
    ensures { result ≡ proposed_is (view value.now) }
{
    let market = market_at(value)?;
    let surplus = fraction_at(value, "surplus")?;
    let bound = fraction_at(value, "bound")?;
    let best_surplus = fraction_at(value, "best_surplus")?;
    let least_bound = fraction_at(value, "least_bound")?;
    if !are_in_order(surplus, best_surplus, least_bound, bound) {
        return None;
    }
    Some(ProposalReply::Proposed {
        market,
        surplus,
        bound,
        best_surplus,
        least_bound,
    })
}

fn run_stop(word: &str) -> StopReason
    ensures { result ≡ stop_named word.now }
{
    if word == "wide" {
        StopReason::Wide
    } else {
        StopReason::Budget
    }
}

fn outcome_from(alloc: Global, value: &Value) -> Result<Option<BoundedOutcome>, AllocError>
    ensures { IfOk result (λ o. o ≡ outcome_is (view value.now)) }
{
    let Some(bound) = fraction_at(value, "bound") else {
        return Ok(None);
    };
    let Some(units) = natural_at(value, 0, u64::from(MAX_BUDGET), "units") else {
        return Ok(None);
    };
    let Some(proposal) = proposal_from(alloc, value)? else {
        return Ok(None);
    };
    Ok(Some(BoundedOutcome {
        proposal,
        bound,
        run: run_stop(word_at(value, "run")),
        units: units as u32,
    }))
}

pub(crate) fn bounded_from(
    alloc: Global,
    value: &Value,
) -> Result<Option<ProposalReply>, AllocError>
    ensures { IfOk result (λ o. o ≡ bounded_is (view value.now)) }
{
    let Some(cleared) = cleared_batch_from(alloc, value)? else {
        return Ok(None);
    };
    let Some(outcome) = outcome_from(alloc, value)? else {
        return Ok(None);
    };
    Ok(Some(ProposalReply::Bounded {
        number: cleared.number,
        market: cleared.market,
        batch: cleared.batch,
        outcome,
    }))
}

pub(crate) fn closed_from(value: &Value) -> Option<ProposalReply>
    ensures { result ≡ closed_is (view value.now) }
{
    let market = market_at(value)?;
    let orders = natural_at(value, 0, MAX_ORDERS as u64, "orders")?;
    Some(ProposalReply::Closed {
        market,
        orders: orders as u32,
    })
}

pub(crate) fn reopened_from(value: &Value) -> Option<ProposalReply>
    ensures { result ≡ reopened_is (view value.now) }
{
    let market = market_at(value)?;
    Some(ProposalReply::Reopened { market })
}

fn failed(word: &str) -> FailureKind
    ensures { result ≡ failed_named word.now }
{
    if word == "BatchShape" {
        FailureKind::BatchShape
    } else if word == "Fill" {
        FailureKind::Fill
    } else if word == "Cover" {
        FailureKind::Cover
    } else if word == "Measure" {
        FailureKind::Measure
    } else {
        FailureKind::Wide
    }
}

fn bar(number: u64) -> Bar
    ensures { result ≡ bar_named number }
{
    if number == 25 {
        Bar::NotAllowed
    } else if number == 26 {
        Bar::NotAsked
    } else {
        Bar::OverQuota
    }
}

// The refusal that tells nothing more than its number.
fn plain_refusal(number: u64) -> ProposalReply
    ensures { result ≡ plain_refusal_named number }
{
    if number == 20 {
        ProposalReply::Stale
    } else if number == 23 {
        ProposalReply::MarketIsClosed
    } else if number == 24 {
        ProposalReply::MarketIsOpen
    } else {
        ProposalReply::Barred(bar(number))
    }
}

fn refused_by(value: &Value, number: u64) -> Option<ProposalReply>
    ensures { result ≡ refused_named number (view value.now) }
{
    if number == 14 {
        let need = need_at(value)?;
        return Some(ProposalReply::Uncovered { need });
    }
    if number == 21 {
        return Some(ProposalReply::Unproved {
            failed: failed(word_at(value, "failed")),
        });
    }
    Some(plain_refusal(number))
}

pub(crate) fn refused_from(value: &Value) -> Option<ProposalReply>
    ensures { result ≡ refused_is (view value.now) }
{
    refused_by(value, number_at(value, "number"))
}

pub(crate) fn secured_from(value: &Value) -> Option<ProposalReply>
    ensures { result ≡ secured_is (view value.now) }
{
    let account = account_at(value)?;
    let need = size_at(value, "need", LIMIT)?;
    Some(ProposalReply::Secured { account, need })
}

// Whether an account is secured, as it is told.
fn secured_at(value: &Value) -> Option<bool>
    ensures { result ≡ take_at (codes "secured") as_bool (view value.now) }
{
    value.get("secured").and_then(Value::as_bool)
}

pub(crate) fn needs_from(value: &Value) -> Option<ProposalReply>
    ensures { result ≡ needs_is (view value.now) }
{
    let account = account_at(value)?;
    let balance = whole_at(value, "balance", LIMIT)?;
    let need = need_at(value)?;
    let secured = secured_at(value)?;
    Some(ProposalReply::Needs(AccountNeed {
        account,
        balance,
        need,
        secured,
    }))
}

// The fraction at a key, where it is not below 0.
fn part_at(value: &Value, key: &str) -> Option<Frac128>
    ensures { result ≡ part_found key.now (view value.now) }
{
    let part = fraction_at(value, key)?;
    if is_not_negative(part) {
        Some(part)
    } else {
        None
    }
}

fn stopped(word: &str) -> Option<StopReason>
    ensures { result ≡ stopped_named word.now }
{
    if word == "optimal" {
        None
    } else {
        Some(run_stop(word))
    }
}

pub(crate) fn tried_from(value: &Value) -> Option<ProposalReply>
    ensures { result ≡ tried_is (view value.now) }
{
    let market = market_at(value)?;
    let fill = part_at(value, "fill")?;
    let surplus = part_at(value, "surplus")?;
    let stopped = stopped(word_at(value, "mark"));
    let trial = Trial {
        fill,
        surplus,
        stopped,
    };
    Some(ProposalReply::Tried { market, trial })
}
