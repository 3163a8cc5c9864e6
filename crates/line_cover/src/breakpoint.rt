//! The price where an option's payoff bends.

ghost use Rattle.std.specs.Prelude.{◌≡◌, ◌<◌, ◌&&◌, int_lt, nat_abs, nat_eq, pos};
ghost use Rattle.std.specs.Option.{option_map};
ghost use Rattle.form.specs.Payoff.{first_option, option_of};
ghost use Rattle.line_cover.specs.Line.{bends, bends_alike, breakpoint_of, lowest_state};
ghost use Rattle.line_cover.specs.Prices.{price_vector};

use crate::price::Price;
use form::{Form, Order};
use frac::gcd;

/// The price in lowest terms.
fn lowest(t: u64, s: u64) -> Price
    requires { 0 < t }
    ensures { price_vector result ≡ lowest_state t s }
{
    let common = gcd(t.into(), s.into()) as u64;
    Price {
        t: t / common,
        s: s / common,
    }
}

/// Whether the strike's entry and the weight have opposite signs.
fn bends(strike: i64, weight: i64) -> bool
    ensures { result ≡ bends strike weight }
{
    is_rising(strike, weight) || is_falling(strike, weight)
}

/// Whether the first number is below 0, and the second above.
fn is_rising(first: i64, second: i64) -> bool
    ensures { result ≡ (int_lt first (pos 0) && int_lt (pos 0) second) }
{
    first < 0 && second > 0
}

/// Whether the first number is above 0, and the second below.
fn is_falling(first: i64, second: i64) -> bool
    ensures { result ≡ (int_lt (pos 0) first && int_lt second (pos 0)) }
{
    first > 0 && second < 0
}

/// Whether an option with this strike's entry and this weight bends, and the two have the sizes of
/// the others.
fn has_bend_of(strike: i64, weight: i64, other_strike: i64, other_weight: i64) -> bool
    ensures { result
        ≡ (bends strike weight
        && nat_eq (nat_abs strike) (nat_abs other_strike)
        && nat_eq (nat_abs weight) (nat_abs other_weight)) }
{
    bends(strike, weight)
        && strike.unsigned_abs() == other_strike.unsigned_abs()
        && weight.unsigned_abs() == other_weight.unsigned_abs()
}

/// Whether the order's first leg bends, and its entries have the sizes of the option's: then it
/// bends where the option does, if that bends. Takes no memory.
pub fn bends_alike(order: &Order, form: &Form) -> bool
    ensures { result ≡ bends_alike (first_option order.now.bundle) (option_of form.now) }
{
    let first = &order.bundle.legs[0].form;
    let (strike, weight) = (first.entries[0], first.entries[1]);
    has_bend_of(strike, weight, form.entries[0], form.entries[1])
}

/// The price above 0 where the payoff of an option on one underlying bends, in lowest terms. Takes
/// no memory.
pub fn breakpoint(form: &Form) -> Option<Price>
    requires { form.now.count ≡ 2 }
    ensures { option_map price_vector result ≡ breakpoint_of (option_of form.now) }
{
    let (strike, weight) = (form.entries[0], form.entries[1]);
    if bends(strike, weight) {
        Some(lowest(weight.unsigned_abs(), strike.unsigned_abs()))
    } else {
        None
    }
}
