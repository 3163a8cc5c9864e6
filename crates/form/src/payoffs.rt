//! What options and bundles pay at states.

ghost use Rattle.std.specs.Prelude.{◌≡◌, ◌≤◌, ◌≤ℤ◌, ◌+◌, ◌^◌, Ok, pos, unsigned_abs, option_and_then, if◌then◌else◌, IfOk, IfSome};
ghost use Rattle.exact_num.specs.Fraction.{whole};
ghost use Rattle.exact_num.specs.Limit.{limit};
ghost use Rattle.exact_num.specs.Fits.{add_of, meaning, misfit, mul_of, size_fits};
ghost use Rattle.form.specs.Payoff.{IsOnCount, bundle_legs, leg_of, option_of};
ghost use Rattle.form.specs.States.{vector_of};
ghost use Rattle.form.specs.Steps.{add_leg, bundle_payoff_of, payoff_of};
ghost use Rattle.exact_num.specs.Steps.{plus_product};

use crate::bundles::Bundle;
use crate::forms::Form;
use crate::legs::Leg;
use crate::states::State;
use exact_num::{Operator, Wide};

/// What the option pays at the state `(t, s)`: t times its payoff at the prices `s / t`. `Wide`
/// comes exactly where a product of two entries or their sum so far is above `2^127 - 1` in size.
/// Takes no memory.
pub fn payoff(form: &Form, state: &State) -> Result<i128, Wide>
    requires { form.now.count ≡ state.now.count }
    ensures payoff { meaning whole result
        ≡ payoff_of limit (option_of form.now) (vector_of state.now) }
    ensures fits { IfOk result (λ h. unsigned_abs h ≤ limit) }
{
    match short_payoff(form, state) {
        Some(payoff) => Ok(payoff),
        None => payoff_by_steps(form, state),
    }
}

/// The same where each entry of the state is of 32 bits: then each step fits, and none is tested.
fn short_payoff(form: &Form, state: &State) -> Option<i128>
    requires { form.now.count ≡ state.now.count }
    ensures payoff { IfSome result (λ h. Ok (whole h)
        ≡ payoff_of limit (option_of form.now) (vector_of state.now)) }
    ensures small { IfSome result (λ h. unsigned_abs h ≤ 2 ^ 98) }
{
    let mut total: i128 = 0;
    for i in 0..form.count as usize {
        let entry = short(state.entries[i])?;
        total = add_short_product(total, form.entries[i], entry);
    }
    Some(total.max(0))
}

/// The number, where it is of 32 bits.
fn short(number: i128) -> Option<i32>
    requires { pos 0 ≤ℤ number }
    ensures { IfSome result (λ n. n ≡ number) }
{
    if number <= i32::MAX.into() {
        Some(number as i32)
    } else {
        None
    }
}

/// The same, whatever the entries.
fn payoff_by_steps(form: &Form, state: &State) -> Result<i128, Wide>
    requires { form.now.count ≡ state.now.count }
    ensures payoff { meaning whole result
        ≡ payoff_of limit (option_of form.now) (vector_of state.now) }
    ensures fits { IfOk result (λ h. unsigned_abs h ≤ limit) }
{
    let mut total: i128 = 0;
    for i in 0..form.count as usize {
        total = add_product(total, form.entries[i], state.entries[i])?;
    }
    Ok(total.max(0))
}

/// The total and the product of the two numbers, which fit.
fn add_short_product(total: i128, a: i64, x: i32) -> i128
    requires { unsigned_abs total ≤ 2 ^ 126 }
    ensures sum { Ok (whole result) ≡ plus_product limit (whole total) (whole a) (whole x) }
    ensures size { unsigned_abs result ≤ unsigned_abs total + 2 ^ 94 }
{
    total + i128::from(a) * i128::from(x)
}

/// What the bundle pays at the state: the sum of each leg's count times its payoff, which may be
/// below 0. `Wide` comes exactly where a leg's payoff, its product with the count or the sum so far
/// does not fit. Takes no memory.
pub fn bundle_payoff(bundle: &Bundle, state: &State) -> Result<i128, Wide>
    requires counts { IsOnCount state.now.count bundle.now }
    ensures payoff { meaning whole result
        ≡ bundle_payoff_of limit (bundle_legs bundle.now) (vector_of state.now) }
    ensures fits { IfOk result (λ h. unsigned_abs h ≤ limit) }
{
    match short_bundle_payoff(bundle, state) {
        Some(payoff) => Ok(payoff),
        None => bundle_payoff_by_steps(bundle, state),
    }
}

/// The same where each entry of the state is of 32 bits: then each step fits, and none is tested.
fn short_bundle_payoff(bundle: &Bundle, state: &State) -> Option<i128>
    requires counts { IsOnCount state.now.count bundle.now }
    ensures payoff { IfSome result (λ h. Ok (whole h)
        ≡ bundle_payoff_of limit (bundle_legs bundle.now) (vector_of state.now)) }
    ensures fits { IfSome result (λ h. unsigned_abs h ≤ limit) }
{
    let mut total: i128 = 0;
    for leg in bundle.as_slice() {
        total = add_short_leg(total, leg, state)?;
    }
    Some(total)
}

/// The total and the count times the payoff of the leg, where each entry of the state is of 32
/// bits.
fn add_short_leg(total: i128, leg: &Leg, state: &State) -> Option<i128>
    requires count { leg.now.form.count ≡ state.now.count }
    requires total { unsigned_abs total ≤ 2 ^ 126 }
    ensures sum { IfSome result (λ s. Ok (whole s)
        ≡ add_leg limit (vector_of state.now) (whole total) (leg_of leg.now)) }
    ensures size { IfSome result (λ s. unsigned_abs s ≤ unsigned_abs total + 2 ^ 113) }
{
    let value = short_payoff(&leg.form, state)?;
    Some(add_short_count(total, leg.count, value))
}

/// The total and the count times the value, which fit.
fn add_short_count(total: i128, count: i16, value: i128) -> i128
    requires total { unsigned_abs total ≤ 2 ^ 126 }
    requires value { unsigned_abs value ≤ 2 ^ 98 }
    ensures sum { Ok (whole result) ≡ plus_product limit (whole total) (whole count) (whole value) }
    ensures size { unsigned_abs result ≤ unsigned_abs total + 2 ^ 113 }
{
    total + i128::from(count) * value
}

/// What the bundle pays, whatever the entries of the state.
fn bundle_payoff_by_steps(bundle: &Bundle, state: &State) -> Result<i128, Wide>
    requires counts { IsOnCount state.now.count bundle.now }
    ensures payoff { meaning whole result
        ≡ bundle_payoff_of limit (bundle_legs bundle.now) (vector_of state.now) }
    ensures fits { IfOk result (λ h. unsigned_abs h ≤ limit) }
{
    let mut total: i128 = 0;
    for leg in bundle.as_slice() {
        total = add_leg(total, leg, state)?;
    }
    Ok(total)
}

/// The total and the count times the payoff of the leg.
fn add_leg(total: i128, leg: &Leg, state: &State) -> Result<i128, Wide>
    requires count { leg.now.form.count ≡ state.now.count }
    requires total { unsigned_abs total ≤ limit }
    ensures sum { meaning whole result
        ≡ add_leg limit (vector_of state.now) (whole total) (leg_of leg.now) }
    ensures fits { IfOk result (λ s. unsigned_abs s ≤ limit) }
{
    let value = payoff(&leg.form, state)?;
    add_product(total, leg.count.into(), value)
}

/// The total and the product of the two numbers.
fn add_product(total: i128, a: i64, x: i128) -> Result<i128, Wide>
    requires { unsigned_abs total ≤ limit }
    ensures sum { meaning whole result ≡ plus_product limit (whole total) (whole a) (whole x) }
    ensures fits { IfOk result (λ s. unsigned_abs s ≤ limit) }
{
    let product = whole_product(a, x)?;
    whole_sum(total, product)
}

/// The product of two whole numbers, as exact numbers of 128 bits have it. Of two numbers of 64
/// bits each fits.
fn whole_product(a: i64, b: i128) -> Result<i128, Wide>
    ensures product { meaning whole result ≡ mul_of limit (whole a) (whole b) }
    ensures fits { IfOk result (λ p. unsigned_abs p ≤ limit) }
{
    match i64::try_from(b) {
        Ok(b) => Ok(i128::from(a) * i128::from(b)),
        Err(_) => checked_product(a.into(), b),
    }
}

/// The same, whatever their sizes.
fn checked_product(a: i128, b: i128) -> Result<i128, Wide>
    ensures product { meaning whole result ≡ mul_of limit (whole a) (whole b) }
    ensures fits { IfOk result (λ p. unsigned_abs p ≤ limit) }
{
    within_limit(a.checked_mul(b)).ok_or(wide(Operator::Mul, a, b))
}

/// The sum of two whole numbers, likewise.
fn whole_sum(a: i128, b: i128) -> Result<i128, Wide>
    requires left { unsigned_abs a ≤ limit }
    requires right { unsigned_abs b ≤ limit }
    ensures sum { meaning whole result ≡ add_of limit (whole a) (whole b) }
    ensures fits { IfOk result (λ s. unsigned_abs s ≤ limit) }
{
    within_limit(a.checked_add(b)).ok_or(wide(Operator::Add, a, b))
}

/// The number, where there is one and its size is at most `2^127 - 1`.
fn within_limit(number: Option<i128>) -> Option<i128>
    ensures { result ≡ option_and_then (λ n. if size_fits limit n then Some n else None) number }
{
    match number {
        Some(n) if n != i128::MIN => Some(n),
        _ => None,
    }
}

/// The misfit of an operation on two whole numbers.
fn wide(operator: Operator, left: i128, right: i128) -> Wide
    ensures { result ≡ misfit operator (whole left) (whole right) }
{
    Wide {
        operator,
        left: (left, 1),
        right: (right, 1),
    }
}
