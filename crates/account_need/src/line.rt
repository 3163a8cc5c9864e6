//! The need of a market on one underlying.
ghost use Rattle.std.specs.Prelude.{◌≡◌, ◌≤◌, ◌+◌, ◌^◌, ℕ, map, unsigned_abs, ◌*◌, pos, ◌+ℤ◌};
ghost use Rattle.arithmetic.specs.Sums.{positive_part};
ghost use Rattle.frac.specs.Range.{limit as largest};
ghost use Rattle.form.specs.Limits.{IsListed};
ghost use Rattle.form.specs.Payoff.{bundle_legs, option_of};
ghost use Rattle.form.specs.declared.limits.TheConstants.{MAX_ORDERS};
ghost use Rattle.account_need.specs.Line.{line_bound, line_need};
ghost use Rattle.account_need.specs.Prices.{AreExposed, IsLineBundle, in_code, option_sum, turning_live, turning_sums, with_bend, with_bends};
ghost use Rattle.account_need.specs.Exposure.{IsEnough, Portfolio};
ghost use Rattle.account_need.specs.Rounded.{options_of, summed};

use crate::costs::reserve;
use crate::exposure::bound;
use crate::kinds::is_by_itself;
use crate::options::bend;
use crate::price::Price;
use crate::sums::FormSum;
use form::{Bundle, Form, Order};

// The greater of the bound so far and that where the option bends.
fn with_bend(sums: &[FormSum], live: &[Order], form: &Form, best: i128) -> i128
    requires exposed { AreExposed sums.now live.now }
    requires on { form.now.count ≡ 2 }
    requires listed { IsListed (option_of form.now) }
    requires best { unsigned_abs best ≤ 2 ^ 126 }
    ensures bound { (positions : ℕ) → result
        ≡ with_bend (in_code sums.now positions live.now) best (option_of form.now) }
    ensures small { unsigned_abs result ≤ 2 ^ 126 }
{
    let Some(at) = bend(form) else {
        return best;
    };
    best.max(bound(sums, live, &at))
}

// That where the legs of a bundle bend.
fn with_bundle(sums: &[FormSum], live: &[Order], bundle: &Bundle, first: i128) -> i128
    requires exposed { AreExposed sums.now live.now }
    requires bundle { IsLineBundle bundle.now }
    requires first { unsigned_abs first ≤ 2 ^ 126 }
    ensures bound { (positions : ℕ) → result
        ≡ with_bends (in_code sums.now positions live.now) first (options_of (bundle_legs bundle.now)) }
    ensures small { unsigned_abs result ≤ 2 ^ 126 }
{
    let mut best = first;
    for leg in bundle.as_slice() {
        best = with_bend(sums, live, &leg.form, best);
    }
    best
}

// That where the sums below 0 bend. What is owed of the others bends up alone, so that it is not
// greatest there.
fn with_sums(sums: &[FormSum], live: &[Order], first: i128) -> i128
    requires exposed { AreExposed sums.now live.now }
    requires first { unsigned_abs first ≤ 2 ^ 126 }
    ensures bound { (positions : ℕ) → result
        ≡ with_bends (in_code sums.now positions live.now) first (turning_sums (map option_sum sums.now)) }
    ensures small { unsigned_abs result ≤ 2 ^ 126 }
{
    let mut best = first;
    for item in sums {
        if item.sum < 0 {
            best = with_bend(sums, live, &item.form, best);
        }
    }
    best
}

// That where the live orders bend, but for the sells of one option, which bend up alone, and the
// buys that lose nothing.
fn with_live(sums: &[FormSum], live: &[Order], first: i128) -> i128
    requires exposed { AreExposed sums.now live.now }
    requires first { unsigned_abs first ≤ 2 ^ 126 }
    ensures bound { (positions : ℕ) → result
        ≡ with_bends (in_code sums.now positions live.now) first (turning_live live.now) }
    ensures small { unsigned_abs result ≤ 2 ^ 126 }
{
    let mut best = first;
    for order in live {
        if is_by_itself(order) {
            best = with_bundle(sums, live, &order.bundle, best);
        }
    }
    best
}

// The greatest exposure, rounded up to whole ticks.
pub(crate) fn line_bound(sums: &[FormSum], live: &[Order]) -> i128
    requires exposed { AreExposed sums.now live.now }
    ensures bound { (positions : ℕ) → result ≡ line_bound (in_code sums.now positions live.now) }
    ensures small { unsigned_abs result ≤ 2 ^ 126 }
{
    let lowest = bound(sums, live, &Price { t: 1, s: 0 });
    let highest = bound(
        sums,
        live,
        &Price {
            t: 1,
            s: 1_000_000_000,
        },
    );
    with_live(sums, live, with_sums(sums, live, lowest.max(highest)))
}

// The bound and what is asked for rounding, or 0 where that is below 0.
pub(crate) fn asked(bound: i128, positions: u32, live: usize) -> u128
    requires bound { unsigned_abs bound ≤ largest }
    requires few { live ≤ MAX_ORDERS }
    ensures asked { result ≡ positive_part (bound +ℤ pos (positions + 2 * live)) }
    ensures small { result ≤ largest + 2 ^ 33 }
{
    let rounding = u128::from(positions) + 2 * live as u128;
    if bound < 0 {
        rounding.saturating_sub(bound.unsigned_abs())
    } else {
        bound.unsigned_abs() + rounding
    }
}

/// What a market on one underlying may ask of the balance of an account, in ticks, where it has so
/// many positions with these sums, and these live orders. The sums are at most 256, and so are the
/// orders; then nothing passes 128 bits. A balance of as much is enough for the market. Takes no
/// memory.
pub fn line_need(sums: &[FormSum], positions: u32, live: &[Order]) -> u128
    requires exposed { AreExposed sums.now live.now }
    ensures need { result ≡ line_need (in_code sums.now positions live.now) }
    ensures enough { (p : Portfolio) → p.underlyings ≡ 1
        → summed p ≡ in_code sums.now positions live.now → IsEnough p (pos result) }
{
    reserve(live) + asked(line_bound(sums, live), positions, live.len())
}
