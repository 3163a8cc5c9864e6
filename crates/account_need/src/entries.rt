//! What a market on several underlyings may owe, as positions of one batch.
ghost use Rattle.std.specs.Prelude.{ℕ, ◌≡◌, ◌≤◌, ◌<◌, ◌*◌, ◌++◌, ◌-◌, OnOk, IfOk, map, filter, pos, unsigned_abs};
ghost use Rattle.std.specs.List.{All};
ghost use Rattle.exact_num.specs.Fraction.{reduced, whole};
ghost use Rattle.form.specs.declared.limits.TheConstants.{MAX_OPTIONS};
ghost use Rattle.form.specs.declared.orders.Side.TheVariants.{Buy};
ghost use Rattle.frac.specs.Value.{fraction_of};
ghost use Rattle.account_need.specs.Prices.{in_code, option_sum};
ghost use Rattle.account_need.specs.Rounded.{unit};
ghost use Rattle.account_need.specs.Given.{IsBatched};
ghost use Rattle.account_need.specs.Several.{is_single_sell, option_owing, owing, owing_in, owing_one, owing_single, owing_sum, side_of, top_call, tops};

use crate::kinds::is_single_sell;
use crate::sums::FormSum;
use exact_num::Exact;
use form::{Bundle, Order, Side, call};
use frac::{Frac128, whole};
use settlement::Position;
use std::alloc::{AllocError, Global};

// So much of a bundle that is owed, a sell, or due, a buy.
fn owing(side: Side, bundle: Bundle, fill: Frac128) -> Position
    ensures { result ≡ owing side bundle (fraction_of fill) }
{
    Position {
        market: 1,
        batch: 1,
        order: 1,
        account: 1,
        side,
        bundle,
        fill,
    }
}

// The size of a sum, in options.
fn sum_fill(sum: i128) -> Frac128
    requires { unsigned_abs sum ≤ MAX_OPTIONS * unit }
    ensures { fraction_of result ≡ reduced (pos (unsigned_abs sum)) unit }
{
    let size = whole(sum.unsigned_abs() as i128);
    let unit = whole(4_294_967_296);
    match size.div(unit) {
        Ok(fill) => fill,
        Err(_) => whole(0),
    }
}

fn side_of(sum: i128) -> Side
    ensures { result ≡ side_of sum }
{
    if sum < 0 { Side::Buy } else { Side::Sell }
}

fn owing_sum(item: &FormSum) -> Position
    requires { unsigned_abs item.now.sum ≤ MAX_OPTIONS * unit }
    ensures { result ≡ owing_sum (option_sum item.now) }
{
    owing(
        side_of(item.sum),
        Bundle::one(item.form),
        sum_fill(item.sum),
    )
}

fn owing_single(order: &Order) -> Position
    ensures { result ≡ owing_single order.now }
{
    owing(Side::Sell, order.bundle, whole(i128::from(order.quantity)))
}

// The call with strike 10^9 on one underlying, with so many before it.
fn top(before: u8, underlyings: u8) -> Position
    requires place { before < underlyings }
    requires few { underlyings ≤ 8 }
    ensures { result ≡ option_owing Buy (top_call before (underlyings - before - 1)) (whole (pos 1)) }
{
    let mut weights: [i16; 8] = [0; 8];
    weights[usize::from(before)] = 1;
    let form = call(1_000_000_000, &weights[..usize::from(underlyings)]);
    owing(Side::Buy, Bundle::one(form), whole(1))
}

fn add_sums(owed: &mut Vec<Position>, sums: &[FormSum]) -> Result<(), AllocError>
    requires { All IsBatched sums.now }
    ensures { OnOk result (owed.new.items
        ≡ owed.old.items ++ map owing_sum (map option_sum sums.now)) }
{
    for item in sums {
        owed.push(owing_sum(item))?;
    }
    Ok(())
}

fn add_singles(owed: &mut Vec<Position>, live: &[Order]) -> Result<(), AllocError>
    ensures { OnOk result (owed.new.items
        ≡ owed.old.items ++ map owing_single (filter is_single_sell live.now)) }
{
    for order in live {
        if is_single_sell(order) {
            owed.push(owing_single(order))?;
        }
    }
    Ok(())
}

fn add_tops(owed: &mut Vec<Position>, underlyings: u8) -> Result<(), AllocError>
    requires few { underlyings ≤ 8 }
    ensures { OnOk result (owed.new.items ≡ owed.old.items ++ tops underlyings) }
{
    for before in 0..underlyings {
        owed.push(top(before, underlyings))?;
    }
    Ok(())
}

/// What the run of a market begins with: the sums, the live sells of one option, and what bounds
/// them.
pub(crate) fn owing_in(
    alloc: Global,
    underlyings: u8,
    sums: &[FormSum],
    live: &[Order],
) -> Result<Vec<Position>, AllocError>
    requires few { underlyings ≤ 8 }
    requires sums { All IsBatched sums.now }
    ensures { IfOk result (λ owed. (positions : ℕ) → owed.items
        ≡ owing_in underlyings (in_code sums.now positions live.now)) }
{
    let mut owed = Vec::new(alloc);
    add_sums(&mut owed, sums)?;
    add_singles(&mut owed, live)?;
    add_tops(&mut owed, underlyings)?;
    Ok(owed)
}

/// What the run of one live order is over.
pub(crate) fn owing_one(
    alloc: Global,
    underlyings: u8,
    order: &Order,
) -> Result<Vec<Position>, AllocError>
    requires few { underlyings ≤ 8 }
    ensures { IfOk result (λ owed. owed.items ≡ owing_one underlyings order.now) }
{
    let mut owed = Vec::new(alloc);
    owed.push(owing(order.side, order.bundle, whole(1)))?;
    add_tops(&mut owed, underlyings)?;
    Ok(owed)
}
