//! What an account needs, and what it may do.
ghost use Rattle.std.specs.Prelude.{ℕ, ◌≡◌, ◌≢◌, ◌≤◌, ◌+◌, IfOk, length, map, pos, unsigned_abs, ◌-ℤ◌};
ghost use Rattle.std.specs.List.{All, list_any};
ghost use Rattle.form.specs.declared.limits.TheConstants.{MAX_ORDERS, MAX_UNDERLYINGS};
ghost use Rattle.frac.specs.Range.{limit as largest};
ghost use Rattle.account_need.specs.Account.{bound_of, can_pay, is_large, may_be_secured, may_withdraw, need_of, portfolios};
ghost use Rattle.account_need.specs.Given.{IsAsked, IsFound, IsMarket, asked_in, numbered, portfolio_of};
ghost use Rattle.account_need.specs.Prices.{IsOrderOn, IsSumOn, in_code, option_sum};

use crate::costs::reserve;
use crate::entries::owing_in;
use crate::held::form_sums;
use crate::line::{asked, line_bound};
use crate::market::Market;
use crate::need::NoNeed;
use crate::several::{Found, run_over, with_own};
use crate::sums::FormSum;
use form::{MAX_ORDERS, Order};
use std::alloc::{AllocError, Global};

// The largest amount.
const LARGEST: u128 = i128::MAX as u128;

// Whether a sum is above 10^6 options.
fn is_large(item: &FormSum) -> bool
    ensures { result ≡ is_large (option_sum item.now) }
{
    item.sum.unsigned_abs() > 4_294_967_296_000_000
}

// Whether one of them is.
fn are_large(sums: &[FormSum]) -> bool
    ensures { result ≡ list_any is_large (map option_sum sums.now) }
{
    for item in sums {
        if is_large(item) {
            return true;
        }
    }
    false
}

// The bound of a market on several underlyings.
fn several_bound(
    alloc: Global,
    underlyings: u8,
    sums: &[FormSum],
    live: &[Order],
    spent: u32,
) -> Result<Result<Found, NoNeed>, AllocError>
    requires underlyings { (1 ≤ underlyings) × (underlyings ≤ MAX_UNDERLYINGS) }
    requires several { underlyings ≢ 1 }
    requires sums { All (IsSumOn (underlyings + 1)) sums.now }
    requires orders { All (IsOrderOn (underlyings + 1)) live.now }
    requires few { length sums.now + length live.now ≤ MAX_ORDERS }
    requires spent { spent ≤ 200 }
    ensures bound { IfOk result (λ bound. (positions : ℕ) → bound
        ≡ bound_of underlyings spent (in_code sums.now positions live.now)) }
    ensures found { IfOk result (λ bound. IfOk bound IsFound) }
{
    if are_large(sums) {
        return Ok(Err(NoNeed::Positions));
    }
    let owed = owing_in(alloc, underlyings, sums, live)?;
    if owed.len() > MAX_ORDERS {
        return Ok(Err(NoNeed::Positions));
    }
    let ran = run_over(alloc, underlyings, &owed, spent)?;
    match ran {
        Ok(first) => with_own(alloc, underlyings, live, first),
        Err(word) => Ok(Err(word)),
    }
}

// The bound of a market, where so many units are spent before.
fn bound_of(
    alloc: Global,
    underlyings: u8,
    sums: &[FormSum],
    live: &[Order],
    spent: u32,
) -> Result<Result<Found, NoNeed>, AllocError>
    requires underlyings { (1 ≤ underlyings) × (underlyings ≤ MAX_UNDERLYINGS) }
    requires sums { All (IsSumOn (underlyings + 1)) sums.now }
    requires orders { All (IsOrderOn (underlyings + 1)) live.now }
    requires few { length sums.now + length live.now ≤ MAX_ORDERS }
    requires spent { spent ≤ 200 }
    ensures bound { IfOk result (λ bound. (positions : ℕ) → bound
        ≡ bound_of underlyings spent (in_code sums.now positions live.now)) }
    ensures found { IfOk result (λ bound. IfOk bound IsFound) }
{
    if underlyings == 1 {
        Ok(Ok((line_bound(sums, live), spent)))
    } else {
        several_bound(alloc, underlyings, sums, live, spent)
    }
}

// What a market may ask, and the units that are spent by then.
fn asked_in(
    alloc: Global,
    market: &Market,
    spent: u32,
) -> Result<Result<(u128, u32), NoNeed>, AllocError>
    requires market { IsMarket market.now }
    requires spent { spent ≤ 200 }
    ensures asked { IfOk result (λ asked. asked ≡ asked_in spent (portfolio_of market.now)) }
    ensures within { IfOk result (λ asked. IfOk asked IsAsked) }
{
    let sums = form_sums(alloc, &market.positions)?;
    if sums.len() + market.live.len() > MAX_ORDERS {
        return Ok(Err(NoNeed::Positions));
    }
    match bound_of(alloc, market.underlyings, &sums, &market.live, spent)? {
        Ok((bound, later)) => {
            let positions = market.positions.len() as u32;
            let rounded = asked(bound, positions, market.live.len());
            Ok(Ok((reserve(&market.live) + rounded, later)))
        }
        Err(word) => Ok(Err(word)),
    }
}

/// What all markets in which an account has positions or live orders may ask of its balance
/// together, in ticks, or the word that stands in its place. They are given by rising number. On
/// one underlying the exposure is looked at where it bends; on several the runs of all markets
/// spend at most 200 units together. The only error is want of memory.
pub fn need_of(alloc: Global, markets: &[Market]) -> Result<Result<u128, NoNeed>, AllocError>
    requires within { All IsMarket markets.now }
    ensures need { IfOk result (λ need. need ≡ need_of (portfolios (numbered markets.now))) }
    ensures fits { IfOk result (λ need. IfOk need (λ amount. amount ≤ largest)) }
{
    let (mut total, mut spent): (u128, u32) = (0, 0);
    for market in markets {
        let found = asked_in(alloc, market, spent)?;
        match found {
            Ok((asked, later)) => {
                if asked > LARGEST - total {
                    return Ok(Err(NoNeed::Sum));
                }
                total += asked;
                spent = later;
            }
            Err(word) => return Ok(Err(word)),
        }
    }
    Ok(Ok(total))
}

// Whether a balance is at least an amount more than the need. A word is never paid.
fn can_pay(balance: i128, amount: u64, need: &Result<u128, NoNeed>) -> bool
    requires { IfOk need.now (λ asked. asked ≤ largest) }
    ensures { result ≡ can_pay (balance -ℤ pos amount) need.now }
{
    match need {
        Ok(asked) => balance >= 0 && *asked + u128::from(amount) <= balance.unsigned_abs(),
        Err(_) => false,
    }
}

/// A need, and whether the balance of the account is enough for it.
#[derive(Clone, Copy, Debug)]
pub struct Judged {
    pub need: Result<u128, NoNeed>,
    pub may: bool,
}

/// Whether an account with this balance may be secured. The only error is want of memory.
pub fn may_be_secured(
    alloc: Global,
    markets: &[Market],
    balance: i128,
) -> Result<Judged, AllocError>
    requires within { All IsMarket markets.now }
    ensures need { IfOk result (λ judged. judged.need
        ≡ need_of (portfolios (numbered markets.now))) }
    ensures may { IfOk result (λ judged. judged.may
        ≡ may_be_secured (numbered markets.now) balance) }
{
    may_withdraw(alloc, markets, balance, 0)
}

/// Whether a secured account may take out an amount. The only error is want of memory.
pub fn may_withdraw(
    alloc: Global,
    markets: &[Market],
    balance: i128,
    amount: u64,
) -> Result<Judged, AllocError>
    requires within { All IsMarket markets.now }
    ensures need { IfOk result (λ judged. judged.need
        ≡ need_of (portfolios (numbered markets.now))) }
    ensures may { IfOk result (λ judged. judged.may
        ≡ may_withdraw (numbered markets.now) balance amount) }
{
    let need = need_of(alloc, markets)?;
    let may = can_pay(balance, amount, &need);
    Ok(Judged { need, may })
}
