//! Where options bend, and what they pay.
ghost use Rattle.std.specs.Prelude.{◌≡◌, ◌≤◌, unsigned_abs, pos, ◌+ℤ◌, ◌*ℤ◌};
ghost use Rattle.std.specs.Option.{option_map};
ghost use Rattle.form.specs.Limits.{IsListed};
ghost use Rattle.form.specs.Payoff.{option_of, payoff};
ghost use Rattle.form.specs.Vector.{strike_entry};
ghost use Rattle.clearing_model.specs.Line.{weight_entry};
ghost use Rattle.account_need.specs.Prices.{bend_within, price_vector};

use crate::price::Price;
use form::Form;

// The strike's entry.
fn strike(form: &Form) -> i64
    requires on { form.now.count ≡ 2 }
    requires listed { IsListed (option_of form.now) }
    ensures strike { result ≡ strike_entry (option_of form.now) }
    ensures small { unsigned_abs result ≤ 1000000000 }
{
    form.entries[0]
}

// The weight of the underlying.
fn weight(form: &Form) -> i64
    requires on { form.now.count ≡ 2 }
    requires listed { IsListed (option_of form.now) }
    ensures weight { result ≡ weight_entry (option_of form.now) }
    ensures small { unsigned_abs result ≤ 1000 }
{
    form.entries[1]
}

// The price above 0 at which the payoff of the option bends.
pub(crate) fn bend(form: &Form) -> Option<Price>
    requires on { form.now.count ≡ 2 }
    requires listed { IsListed (option_of form.now) }
    ensures { option_map price_vector result ≡ bend_within (option_of form.now) }
{
    let (strike, weight) = (strike(form), weight(form));
    if (strike < 0 && weight > 0) || (strike > 0 && weight < 0) {
        Some(Price {
            t: weight.unsigned_abs(),
            s: strike.unsigned_abs(),
        })
    } else {
        None
    }
}

// What the option pays at the price, times t.
pub(crate) fn pays(form: &Form, at: &Price) -> u64
    requires on { form.now.count ≡ 2 }
    requires listed { IsListed (option_of form.now) }
    ensures pays { result ≡ payoff (option_of form.now) (price_vector at.now) }
    ensures small { result ≤ 2000000000000 }
{
    let value = value(strike(form), weight(form), at);
    if value > 0 { value as u64 } else { 0 }
}

// What it would pay if it could be below 0.
fn value(strike: i64, weight: i64, at: &Price) -> i64
    requires strike { unsigned_abs strike ≤ 1000000000 }
    requires weight { unsigned_abs weight ≤ 1000 }
    ensures value { result ≡ (strike *ℤ pos at.now.t) +ℤ (weight *ℤ pos at.now.s) }
    ensures small { unsigned_abs result ≤ 2000000000000 }
{
    strike * at.t as i64 + weight * at.s as i64
}
