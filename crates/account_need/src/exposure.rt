//! The exposure at a price.
ghost use Rattle.std.specs.Prelude.{◌≡◌, ◌≤◌, ◌+◌, ◌*◌, ◌^◌, ◌*ℤ◌, ℕ, length, map, pos, unsigned_abs};
ghost use Rattle.std.specs.List.{All};
ghost use Rattle.form.specs.declared.limits.TheConstants.{MAX_ORDERS};
ghost use Rattle.account_need.specs.Prices.{IsLineOrder, IsLineSum, bound_at, in_code, option_sum, price_vector};
ghost use Rattle.form.specs.Payoff.{option_of, payoff};
ghost use Rattle.portfolio_margin.specs.Need.{ceil_of};
ghost use Rattle.account_need.specs.Rounded.{owed_of, rounded_exposure, unit};

use crate::costs::losses;
use crate::options::pays;
use crate::price::Price;
use crate::sums::FormSum;
use crate::ticks::ceil_of;
use form::Order;

// What is owed of one sum, in 2^-32 of a tick.
fn amount_of(item: &FormSum, at: &Price) -> i128
    requires { IsLineSum item.now }
    ensures amount { result
        ≡ item.now.sum *ℤ pos (payoff (option_of item.now.form) (price_vector at.now)) }
    ensures small { unsigned_abs result ≤ 144115188075855872000000000000000000 }
{
    item.sum * i128::from(pays(&item.form, at))
}

// What is owed of all of them.
fn owed(sums: &[FormSum], at: &Price) -> i128
    requires within { All IsLineSum sums.now }
    requires few { length sums.now ≤ MAX_ORDERS }
    ensures owed { result ≡ owed_of (price_vector at.now) (map option_sum sums.now) }
    ensures small { unsigned_abs result ≤ length sums.now * 144115188075855872000000000000000000 }
{
    let mut total: i128 = 0;
    for item in sums {
        total += amount_of(item, at);
    }
    total
}

// The exposure, in 2^-32 of a tick.
pub(crate) fn exposure(sums: &[FormSum], live: &[Order], at: &Price) -> i128
    requires sums { All IsLineSum sums.now }
    requires few_sums { length sums.now ≤ MAX_ORDERS }
    requires live { All IsLineOrder live.now }
    requires few { length live.now ≤ MAX_ORDERS }
    ensures exposure { (positions : ℕ) → result
        ≡ rounded_exposure (in_code sums.now positions live.now) (price_vector at.now) }
    ensures small { unsigned_abs result ≤ 2 ^ 126 }
{
    let lost = losses(live, at) * 4_294_967_296;
    owed(sums, at) + lost as i128
}

// Rounded up to whole ticks, at a price over t.
pub(crate) fn in_ticks(exposure: i128, at: &Price) -> i128
    requires small { unsigned_abs exposure ≤ 2 ^ 126 }
    ensures ceil { result ≡ ceil_of exposure (unit * at.now.t) }
    ensures small { unsigned_abs result ≤ 2 ^ 126 }
{
    ceil_of(exposure, u128::from(at.t) * 4_294_967_296)
}

// The exposure, rounded up to whole ticks.
pub(crate) fn bound(sums: &[FormSum], live: &[Order], at: &Price) -> i128
    requires sums { All IsLineSum sums.now }
    requires few_sums { length sums.now ≤ MAX_ORDERS }
    requires live { All IsLineOrder live.now }
    requires few { length live.now ≤ MAX_ORDERS }
    ensures bound { (positions : ℕ) → result
        ≡ bound_at (in_code sums.now positions live.now) (price_vector at.now) }
    ensures small { unsigned_abs result ≤ 2 ^ 126 }
{
    in_ticks(exposure(sums, live, at), at)
}
