//! The bound of a market on several underlyings.
ghost use Rattle.std.specs.Prelude.{ℤ, ◌≡◌, ◌≤◌, ◌+◌, ◌*◌, IfOk, Some, None, filter, length, nat_le, pos, unsigned_abs, ◌+ℤ◌, if◌then◌else◌};
ghost use Rattle.std.specs.List.{All};
ghost use Rattle.arithmetic.specs.Sums.{positive_part};
ghost use Rattle.form.specs.Payoff.{IsOnCount};
ghost use Rattle.form.specs.declared.limits.TheConstants.{MAX_ORDERS, MAX_UNDERLYINGS};
ghost use Rattle.frac.specs.Range.{limit as largest};
ghost use Rattle.frac.specs.Value.{fraction_of};
ghost use Rattle.portfolio_margin.specs.Answers.{IsMarginWith};
ghost use Rattle.portfolio_margin.specs.Need.{ceil_of};
ghost use Rattle.portfolio_margin.specs.Run.{Margin};
ghost use Rattle.settlement.specs.Positions.{IsHeldPosition};
ghost use Rattle.simplex_run.specs.Ending.{Ending};
ghost use Rattle.account_need.specs.Given.{IsFound};
ghost use Rattle.account_need.specs.Prices.{IsOrderOn};
ghost use Rattle.account_need.specs.Several.{bounded_by, is_by_itself, less_price, run_over, with_one, with_own, within};

use crate::entries::owing_one;
use crate::kinds::is_by_itself;
use crate::need::NoNeed;
use crate::ticks::ceil_of;
use exact_num::Exact;
use form::{Order, Side};
use frac::Frac128;
use portfolio_margin::{LeastMargin, margin_with_units};
use settlement::Position;
use std::alloc::{AllocError, Global};

/// The units that the runs of one account's need may spend together.
const NEED_BUDGET: u32 = 200;

/// A bound, in ticks, and the units that are spent by then.
pub(crate) type Found = (i128, u32);

// The liability in whole ticks.
fn rounded_up(liability: &Frac128) -> i128
    ensures ceil { result ≡ ceil_of (fraction_of liability.now).numerator
        (fraction_of liability.now).denominator }
    ensures small { unsigned_abs result ≤ largest }
{
    let (numerator, denominator) = liability.parts();
    ceil_of(numerator, denominator.unsigned_abs())
}

// The bound that a run ended with.
fn bounded_by(margin: &LeastMargin, spent: u32, units: u32) -> Result<Found, NoNeed>
    requires { spent + units ≤ 200 }
    ensures bound { (ending : Ending Margin) → IsMarginWith ending margin.now units
        → result ≡ bounded_by spent ending }
    ensures found { IfOk result IsFound }
{
    match margin {
        LeastMargin::Least { liability, .. } => Ok((rounded_up(liability), spent + units)),
        LeastMargin::Unbounded { .. } => Err(NoNeed::Unbounded),
        LeastMargin::Wide { .. } => Err(NoNeed::Wide),
        LeastMargin::Budget => Err(NoNeed::Budget),
    }
}

/// The bound of what the positions owe, where so many units are spent before.
pub(crate) fn run_over(
    alloc: Global,
    underlyings: u8,
    owed: &[Position],
    spent: u32,
) -> Result<Result<Found, NoNeed>, AllocError>
    requires few { length owed.now ≤ MAX_ORDERS }
    requires underlyings { (1 ≤ underlyings) × (underlyings ≤ MAX_UNDERLYINGS) }
    requires forms { All (λ p. IsOnCount (underlyings + 1) p.bundle) owed.now }
    requires held { All IsHeldPosition owed.now }
    requires spent { spent ≤ 200 }
    ensures bound { IfOk result (λ bound. bound ≡ run_over underlyings spent owed.now) }
    ensures found { IfOk result (λ bound. IfOk bound IsFound) }
{
    let (margin, units) = margin_with_units(alloc, owed, underlyings, NEED_BUDGET - spent)?;
    Ok(bounded_by(&margin, spent, units))
}

// What one bundle of the order may lose, where the bound of its run is so much.
fn own_loss(order: &Order, bound: i128) -> u128
    requires { unsigned_abs bound ≤ largest }
    ensures { result ≡ positive_part (less_price order.now.side order.now.price bound) }
{
    let price = match order.side {
        Side::Buy => 0,
        Side::Sell => i128::from(order.price),
    };
    if bound > price {
        bound.abs_diff(price)
    } else {
        0
    }
}

// So many times the loss more, where that is within the limit.
fn more(bound: i128, times: u32, loss: u128) -> Option<i128>
    requires { unsigned_abs bound ≤ largest }
    ensures { result ≡ (if nat_le (unsigned_abs (bound +ℤ pos (times * loss))) largest
        then Some (bound +ℤ pos (times * loss)) else None) }
{
    let added = u128::from(times).checked_mul(loss)?;
    bound.checked_add_unsigned(added)
}

// The bound with the order's own.
fn with_one(
    alloc: Global,
    underlyings: u8,
    order: &Order,
    found: Found,
) -> Result<Result<Found, NoNeed>, AllocError>
    requires underlyings { (1 ≤ underlyings) × (underlyings ≤ MAX_UNDERLYINGS) }
    requires order { IsOrderOn (underlyings + 1) order.now }
    requires found { IsFound found }
    ensures bound { IfOk result (λ bound. bound
        ≡ with_one underlyings order.now found.0 found.1) }
    ensures found { IfOk result (λ bound. IfOk bound IsFound) }
{
    let owed = owing_one(alloc, underlyings, order)?;
    match run_over(alloc, underlyings, &owed, found.1)? {
        Ok((own, spent)) => match more(found.0, order.quantity, own_loss(order, own)) {
            Some(bound) => Ok(Ok((bound, spent))),
            None => Ok(Err(NoNeed::Sum)),
        },
        Err(word) => Ok(Err(word)),
    }
}

/// The bound with those of all orders that have runs of their own.
pub(crate) fn with_own(
    alloc: Global,
    underlyings: u8,
    live: &[Order],
    first: Found,
) -> Result<Result<Found, NoNeed>, AllocError>
    requires underlyings { (1 ≤ underlyings) × (underlyings ≤ MAX_UNDERLYINGS) }
    requires orders { All (IsOrderOn (underlyings + 1)) live.now }
    requires found { IsFound first }
    ensures bound { IfOk result (λ bound. bound
        ≡ with_own underlyings (filter is_by_itself live.now) first.0 first.1) }
    ensures found { IfOk result (λ bound. IfOk bound IsFound) }
{
    let mut found = first;
    for order in live {
        if is_by_itself(order) {
            match with_one(alloc, underlyings, order, found)? {
                Ok(more) => found = more,
                Err(word) => return Ok(Err(word)),
            }
        }
    }
    Ok(Ok(found))
}
