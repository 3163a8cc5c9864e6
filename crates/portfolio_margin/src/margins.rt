//! The margin of positions of one market.
ghost use Rattle.std.specs.Prelude.{◌≡◌, ◌≤◌, ◌+◌, IfOk, length};
ghost use Rattle.std.specs.List.{All};
ghost use Rattle.frac.specs.Range.{limit as largest};
ghost use Rattle.frac.specs.Value.{fraction_of};
ghost use Rattle.form.specs.Payoff.{IsOnCount};
ghost use Rattle.form.specs.States.{vector_of};
ghost use Rattle.form.specs.declared.limits.TheConstants.{MAX_ORDERS, MAX_UNDERLYINGS};
ghost use Rattle.master_program.specs.Master.{zero_prices};
ghost use Rattle.pricing_oracle.specs.Answers.{MayBeSearched};
ghost use Rattle.settlement.specs.Positions.{IsHeldPosition};
ghost use Rattle.portfolio_margin.specs.Answers.{IsEndOf, IsMarginOf, IsMarginWith, IsTrueOf, asked_in};
ghost use Rattle.portfolio_margin.specs.Run.{asked_for, margin_run, turns_from};

use crate::batch::{fills_of, orders_of};
use crate::least_margin::LeastMargin;
use crate::turn::{Turn, Wanted, take_turn};
use form::{Batch, Orders, State};
use frac::Frac128;
use line_cover::net::net;
use settlement::Position;
use settlement::payouts::settlement_at;
use simplex::{Budget, SolveStop};
use std::alloc::{AllocError, Global};

// The settlement at which the price of each underlying is 0.
fn zero_prices(underlyings: u8) -> State
    requires { (1 ≤ underlyings) × (underlyings ≤ 8) }
    ensures vector { vector_of result ≡ zero_prices underlyings }
    ensures count { result.count ≡ underlyings + 1 }
{
    let prices = [0; 8];
    settlement_at(&prices[..usize::from(underlyings)])
}

// Searches, each with the liability that the state found before it wants, until one closes.
fn turns(
    alloc: Global,
    batch: &Batch,
    fills: &[Frac128],
    first: Wanted,
    budget: &mut Budget,
) -> Result<LeastMargin, SolveStop>
    requires { MayBeSearched fraction_of batch.now fills.now }
    ensures end { IsEndOf (turns_from (asked_in budget.old.limit batch.now fills.now)
        (budget.old.limit + 1) (fraction_of first.liability) (vector_of first.at)
        budget.old.spent) result budget.new.spent }
    ensures limit { budget.new.limit ≡ budget.old.limit }
{
    let mut wanted = first;
    // Each search spends a unit, so that the last one here wants more than the budget has.
    for _turn in 0..u64::from(budget.limit) + 1 {
        match take_turn(alloc, batch, fills, wanted, budget)? {
            Turn::Ends(margin) => return Ok(margin),
            Turn::Goes(next) => wanted = next,
        }
    }
    Err(SolveStop::Budget)
}

// The run over the batch of the positions.
fn least(
    alloc: Global,
    batch: &Batch,
    fills: &[Frac128],
    budget: &mut Budget,
) -> Result<LeastMargin, SolveStop>
    requires asked { MayBeSearched fraction_of batch.now fills.now }
    requires unspent { budget.old.spent ≡ 0 }
    ensures end { IsEndOf (margin_run (asked_in budget.old.limit batch.now fills.now))
        result budget.new.spent }
    ensures limit { budget.new.limit ≡ budget.old.limit }
{
    let orders = batch.orders.as_slice();
    let at = zero_prices(batch.underlyings);
    match net(orders, fills, &at) {
        Ok(liability) => {
            let first = Wanted { liability, at };
            turns(alloc, batch, fills, first, budget)
        }
        Err(wide) => Err(SolveStop::Wide { unit: 0, wide }),
    }
}

/// The margin of the positions, as `margin` says it, and how many units its run spent. The only
/// error is want of memory.
pub fn margin_with_units(
    alloc: Global,
    positions: &[Position],
    underlyings: u8,
    limit: u32,
) -> Result<(LeastMargin, u32), AllocError>
    requires few { length positions.now ≤ MAX_ORDERS }
    requires underlyings { (1 ≤ underlyings) × (underlyings ≤ MAX_UNDERLYINGS) }
    requires forms { All (λ p. IsOnCount (underlyings + 1) p.bundle) positions.now }
    requires held { All IsHeldPosition positions.now }
    ensures run { IfOk result (λ told. IsMarginWith
        (margin_run (asked_for largest limit underlyings positions.now)) told.0 told.1) }
    ensures units { IfOk result (λ told. told.1 ≤ limit) }
{
    let orders = orders_of(alloc, positions)?;
    let fills = fills_of(alloc, positions)?;
    let batch = Batch {
        underlyings,
        orders: Orders::from_vec(orders),
    };
    let mut budget = Budget::new(limit);
    match least(alloc, &batch, fills.as_slice(), &mut budget) {
        Ok(margin) => Ok((margin, budget.spent)),
        Err(SolveStop::Wide { unit, wide }) => Ok((LeastMargin::Wide { unit, wide }, budget.spent)),
        Err(SolveStop::Budget) => Ok((LeastMargin::Budget, budget.spent)),
        Err(SolveStop::Memory) => Err(AllocError),
    }
}

/// The least liability that covers what the positions owe at every state: what the sells pay less
/// what the buys get. They are at most 256, of one market on this number of underlyings. It begins
/// with what they owe where all prices are 0, and searches for a state at which they owe more,
/// until there is none; at most `limit` units of work are spent. The only error is want of memory.
pub fn margin(
    alloc: Global,
    positions: &[Position],
    underlyings: u8,
    limit: u32,
) -> Result<LeastMargin, AllocError>
    requires few { length positions.now ≤ MAX_ORDERS }
    requires underlyings { (1 ≤ underlyings) × (underlyings ≤ MAX_UNDERLYINGS) }
    requires forms { All (λ p. IsOnCount (underlyings + 1) p.bundle) positions.now }
    requires held { All IsHeldPosition positions.now }
    ensures run { IfOk result (IsMarginOf
        (margin_run (asked_for largest limit underlyings positions.now))) }
    ensures least { IfOk result (IsTrueOf underlyings positions.now) }
{
    let (margin, _units) = margin_with_units(alloc, positions, underlyings, limit)?;
    Ok(margin)
}
