//! What one position owes of an option.
ghost use Rattle.std.specs.Prelude.{◌≡◌, ◌≤◌, ◌*◌, pos, unsigned_abs, ◌*ℤ◌, ◌≤ℤ◌};
ghost use Rattle.exact_num.specs.Fraction.{AtMost, plain_product, whole};
ghost use Rattle.form.specs.Payoff.{bundle_legs, option_of};
ghost use Rattle.form.specs.Vector.{is_same_option};
ghost use Rattle.form.specs.declared.limits.TheConstants.{MAX_OPTIONS};
ghost use Rattle.frac.specs.Value.{fraction_of};
ghost use Rattle.portfolio_margin.specs.Need.{ceil_of};
ghost use Rattle.portfolio_margin.specs.Owed.{owed_by};
ghost use Rattle.settlement.specs.Positions.{IsHeldPosition};
ghost use Rattle.account_need.specs.Prices.{is_of_another};
ghost use Rattle.account_need.specs.Rounded.{count_of, part_owed, unit};

use exact_num::Exact;
use form::{Bundle, Form, Side};
use frac::{Frac128, mul_div_ceil, mul_div_floor};
use settlement::Position;

// 2^32.
const UNIT: u128 = 4_294_967_296;

// Whether the forms are the same option. Most that are not have another strike.
pub(crate) fn is_same(a: &Form, b: &Form) -> bool
    ensures { result ≡ is_same_option (option_of a.now) (option_of b.now) }
{
    a.entries[0] == b.entries[0] && *a == *b
}

// Whether another option is the only one of the bundle.
fn is_of_another(bundle: &Bundle, form: &Form) -> bool
    ensures { result ≡ is_of_another (bundle_legs bundle.now) (option_of form.now) }
{
    let legs = bundle.as_slice();
    legs.len() == 1 && !is_same(&legs[0].form, form)
}

// How often the option counts in the bundle.
fn count_in(bundle: &Bundle, form: &Form) -> i64
    ensures count { result ≡ count_of (option_of form.now) (bundle_legs bundle.now) }
    ensures small { unsigned_abs result ≤ 4000 }
{
    let mut count: i64 = 0;
    for leg in bundle.as_slice() {
        if is_same(&leg.form, form) {
            count += i64::from(leg.count);
        }
    }
    count
}

// How often one bundle of the position owes the option.
fn owed_count(position: &Position, form: &Form) -> i64
    ensures count { result ≡ owed_by position.now.side
        (count_of (option_of form.now) (bundle_legs position.now.bundle)) }
    ensures small { unsigned_abs result ≤ 4000 }
{
    let count = count_in(&position.bundle, form);
    match position.side {
        Side::Buy => -count,
        Side::Sell => count,
    }
}

// So many times the fill, rounded up to whole numbers of 2^-32.
fn rounded_up(fill: &Frac128, times: i64) -> i128
    requires not_below_zero { pos 0 ≤ℤ (fraction_of fill.now).numerator }
    requires small { unsigned_abs times ≤ 4000 }
    requires few { AtMost (plain_product (fraction_of fill.now) (whole (pos (unsigned_abs times))))
        (whole (pos MAX_OPTIONS)) }
    ensures value { result ≡ ceil_of ((times *ℤ (fraction_of fill.now).numerator) *ℤ pos unit)
        (fraction_of fill.now).denominator }
    ensures small { unsigned_abs result ≤ 4294967296000000 }
{
    let (numerator, denominator) = fill.parts();
    let (n, d) = (numerator.unsigned_abs(), denominator.unsigned_abs());
    let share = u128::from(times.unsigned_abs()) * UNIT;
    if times > 0 {
        mul_div_ceil(n, d, share) as i128
    } else {
        -(mul_div_floor(n, d, share) as i128)
    }
}

// What the position owes of the option: fill times count, rounded up.
pub(crate) fn part_owed(position: &Position, form: &Form) -> i128
    requires { IsHeldPosition position.now }
    ensures part { result ≡ part_owed (option_of form.now) position.now }
    ensures small { unsigned_abs result ≤ 4294967296000000 }
{
    if is_of_another(&position.bundle, form) {
        return 0;
    }
    let count = owed_count(position, form);
    if count == 0 {
        return 0;
    }
    rounded_up(&position.fill, count)
}
