//! Payouts of positions at the prices of a settlement.

ghost use Rattle.std.specs.Prelude.{◌≡◌, ◌+◌, ◌*◌, ◌≤◌, ◌≤ℤ◌, ◌∷◌, length, pos, unsigned_abs, ◌*ℤ◌};
ghost use Rattle.exact_num.specs.Fraction.{AtMost, plain_product, whole};
ghost use Rattle.exact_num.specs.Limit.{limit};
ghost use Rattle.form.specs.Payoff.{bundle_legs, count_sizes};
ghost use Rattle.form.specs.States.{vector_of};
ghost use Rattle.frac.specs.Value.{fraction_of};
ghost use Rattle.limits.specs.declared.TheConstants.{MAX_GAIN, MAX_PAYOFF};
ghost use Rattle.settlement.specs.Payout.{IsHolding, IsSettledAt, floor_of, gain_of, worth_at};

use crate::rounding::{rounded_down, rounded_up};
use form::{Bundle, Side, State, bundle_payoff};
use frac::Frac128;

/// The gain of a position at the prices at which its market is settled, in ticks: for a buy the
/// fill times what the bundle pays, and for a sell its negative, rounded down. So the rounding
/// favours the house, which pays a gain and is paid a loss. The options are within the limits,
/// there is a price from 0 to 10^9 for each of their underlyings, and the fill counts at most
/// 1,000,000 options. Takes no memory.
pub fn payout(side: &Side, fill: &Frac128, bundle: &Bundle, prices: &[u32]) -> i64
    requires held { IsHolding bundle.now (fraction_of fill.now) }
    requires settled { IsSettledAt prices.now bundle.now }
    ensures gain { result
        ≡ gain_of side.now (fraction_of fill.now) (bundle_legs bundle.now) prices.now }
    ensures fits { unsigned_abs result ≤ MAX_GAIN }
{
    let worth = worth_at(bundle, prices);
    match side {
        Side::Buy => floor_of_product(fill, worth),
        Side::Sell => floor_of_product(fill, -worth),
    }
}

/// The fill times the ticks, rounded down.
fn floor_of_product(fill: &Frac128, ticks: i128) -> i64
    requires not_below_zero { pos 0 ≤ℤ (fraction_of fill.now).numerator }
    requires small { unsigned_abs ticks ≤ limit }
    requires few { AtMost (plain_product (fraction_of fill.now) (whole (pos (unsigned_abs ticks))))
        (whole (pos MAX_GAIN)) }
    ensures product { result ≡ floor_of ((fraction_of fill.now).numerator *ℤ ticks)
        (fraction_of fill.now).denominator }
    ensures fits { unsigned_abs result ≤ MAX_GAIN }
{
    if ticks < 0 {
        -(rounded_up(fill, ticks.unsigned_abs()) as i64)
    } else {
        rounded_down(fill, ticks.unsigned_abs()) as i64
    }
}

/// What the bundle pays at the prices, in ticks; it may be below 0.
fn worth_at(bundle: &Bundle, prices: &[u32]) -> i128
    requires { IsSettledAt prices.now bundle.now }
    ensures worth { result ≡ worth_at prices.now (bundle_legs bundle.now) }
    ensures few { unsigned_abs result ≤ count_sizes bundle.now * MAX_PAYOFF }
    ensures fits { unsigned_abs result ≤ limit }
{
    bundle_payoff(bundle, &settlement_at(prices)).unwrap()
}

/// The settlement at whole prices.
pub fn settlement_at(prices: &[u32]) -> State
    requires { (1 ≤ length prices.now) × (length prices.now ≤ 8) }
    ensures vector { vector_of result ≡ 1 ∷ prices.now }
    ensures count { result.count ≡ length prices.now + 1 }
{
    let mut entries = [0; 9];
    entries[0] = 1;
    for (i, price) in prices.iter().enumerate() {
        entries[i + 1] = i128::from(*price);
    }
    State {
        count: prices.len() as u8 + 1,
        entries,
    }
}
