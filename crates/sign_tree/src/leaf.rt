//! The check of one leaf: its multipliers stand where they may, and no entry of its sum is above 0.

ghost use Rattle.std.specs.Prelude.{◌≡◌, ◌<◌, ◌-◌, ◌&&◌, length, map, pos, true, Ok};
ghost use Rattle.std.specs.List.{list_all};
ghost use Rattle.exact_num.specs.Fits.{meaning, mul_of};
ghost use Rattle.exact_num.specs.Fraction.{whole};
ghost use Rattle.frac.specs.Value.{fraction_of};
ghost use Rattle.frac.specs.Range.{limit};
ghost use Rattle.exact_num.specs.Steps.{all_of, fold_steps, less_product, plus_product};
ghost use Rattle.sign_tree.specs.Read.{placed_of, sign_of};
ghost use Rattle.sign_tree.specs.Left.{batch_legs, exposure_as, leg_as};
ghost use Rattle.sign_tree.specs.Walk.{add_leg, add_term, are_placed, entries_close, entry_sum, first_at, has_no_minus, is_unsigned, is_within, keeps_within, leaf_closes, left_after, leg_fill, may_carry, places_rise, plus_filled, signed_legs};

use crate::filled::Filled;
use crate::legs::{BatchLeg, Exposure, LegsLeft, first_leg, leg_at, leg_fill};
use crate::trees::Multiplier;
use exact_num::{Exact, Wide, plus_product};
use form::Order;
use frac::{Frac128, whole};

/// Whether the leg is long and has no sign.
pub fn is_unsigned(exposure: Exposure, sign: i8) -> bool
    ensures { result ≡ is_unsigned (exposure_as exposure) (sign_of sign) }
{
    match exposure {
        Exposure::Long => sign == 0,
        Exposure::Short => false,
    }
}

/// Whether the places rise strictly, the first above 0.
fn places_rise(multipliers: &[Multiplier]) -> bool
    ensures { result ≡ places_rise 0 (map placed_of multipliers.now) }
{
    let mut last = 0;
    for multiplier in multipliers {
        if multiplier.place <= last {
            return false;
        }
        last = multiplier.place;
    }
    true
}

/// Whether a leg that is short or has a sign stands at the multiplier's place.
fn may_carry(orders: &[Order], fills: &[Frac128], signs: &[i8], multiplier: &Multiplier) -> bool
    requires { length fills.now ≡ length orders.now }
    ensures { result ≡ may_carry (batch_legs fraction_of orders.now fills.now)
        (map sign_of signs.now) (placed_of multiplier.now) }
{
    let place = multiplier.place as usize;
    if place == 0 || place > signs.len() {
        return false;
    }
    match leg_at(orders, fills, place - 1) {
        Some(leg) => !is_unsigned(leg.exposure, signs[place - 1]),
        None => false,
    }
}

/// The same of each multiplier.
fn may_all_carry(
    orders: &[Order],
    fills: &[Frac128],
    signs: &[i8],
    multipliers: &[Multiplier],
) -> bool
    requires { length fills.now ≡ length orders.now }
    ensures { result ≡ list_all
        (may_carry (batch_legs fraction_of orders.now fills.now) (map sign_of signs.now))
        (map placed_of multipliers.now) }
{
    for multiplier in multipliers {
        if !may_carry(orders, fills, signs, multiplier) {
            return false;
        }
    }
    true
}

/// Whether the multiplier is not below 0.
fn has_no_minus(multiplier: &Multiplier) -> bool
    ensures { result ≡ has_no_minus (placed_of multiplier.now) }
{
    multiplier.by.sign() >= 0
}

/// The same of each multiplier.
fn have_no_minus(multipliers: &[Multiplier]) -> bool
    ensures { result ≡ list_all has_no_minus (map placed_of multipliers.now) }
{
    for multiplier in multipliers {
        if !has_no_minus(multiplier) {
            return false;
        }
    }
    true
}

/// Whether the places of the multipliers rise, each may stand there, and none is below 0.
fn are_placed(orders: &[Order], fills: &[Frac128], signs: &[i8], multipliers: &[Multiplier]) -> bool
    requires { length fills.now ≡ length orders.now }
    ensures { result ≡ are_placed (batch_legs fraction_of orders.now fills.now)
        (map sign_of signs.now) (map placed_of multipliers.now) }
{
    places_rise(multipliers)
        && may_all_carry(orders, fills, signs, multipliers)
        && have_no_minus(multipliers)
}

/// Whether the multiplier is at most the leg's fill, where the leg is short.
fn is_within(leg: BatchLeg<Frac128>, by: Frac128) -> Result<bool, Wide>
    ensures { result ≡ is_within limit (exposure_as leg.entry.exposure)
        (leg_as fraction_of leg.entry) (fraction_of by) }
{
    match leg.exposure {
        Exposure::Long => Ok(true),
        Exposure::Short => {
            let fill = leg_fill(leg)?;
            Ok(by <= fill)
        }
    }
}

/// The same of the leg at the multiplier's place.
fn keeps_within(orders: &[Order], fills: &[Frac128], multiplier: &Multiplier) -> Result<bool, Wide>
    requires { length fills.now ≡ length orders.now }
    ensures { result ≡ keeps_within limit (batch_legs fraction_of orders.now fills.now)
        (placed_of multiplier.now) }
{
    let index = (multiplier.place as usize).saturating_sub(1);
    match leg_at(orders, fills, index) {
        Some(leg) => is_within(leg, multiplier.by),
        None => Ok(true),
    }
}

/// The same of each multiplier.
fn all_keep_within(
    orders: &[Order],
    fills: &[Frac128],
    multipliers: &[Multiplier],
) -> Result<bool, Wide>
    requires { length fills.now ≡ length orders.now }
    ensures { result ≡ all_of (keeps_within limit (batch_legs fraction_of orders.now fills.now))
        (map placed_of multipliers.now) }
{
    for multiplier in multipliers {
        if !keeps_within(orders, fills, multiplier)? {
            return Ok(false);
        }
    }
    Ok(true)
}

/// The multiplier of the place, where it comes first, and else 0.
fn first_at(multipliers: &[Multiplier], place: usize) -> Frac128
    ensures { fraction_of result ≡ first_at place (map placed_of multipliers.now) }
{
    match multipliers {
        [first, ..] if first.place as usize == place => first.by,
        _ => Frac128::zero(),
    }
}

/// The multipliers that are left after that.
fn left_after(multipliers: &[Multiplier], place: usize) -> &[Multiplier]
    ensures { map placed_of result.now ≡ left_after place (map placed_of multipliers.now) }
{
    match multipliers {
        [first, rest @ ..] if first.place as usize == place => rest,
        _ => multipliers,
    }
}

/// Whether a factor is 0: then the product is 0, and always fits.
fn is_nothing(a: Frac128, x: i64) -> bool
    ensures { result ≡ true → mul_of limit (fraction_of a) (whole x) ≡ Ok (whole (pos 0)) }
{
    x == 0 || a.sign() == 0
}

/// The total and the product, or the total alone where the product is nothing.
fn plus_times(total: Frac128, a: Frac128, x: i64) -> Result<Frac128, Wide>
    ensures { meaning fraction_of result ≡ plus_product limit (fraction_of total) (fraction_of a)
        (whole x) }
{
    if is_nothing(a, x) {
        return Ok(total);
    }
    plus_product(total, a, whole(x.into()))
}

/// The total less the product, likewise.
fn less_times(total: Frac128, a: Frac128, x: i64) -> Result<Frac128, Wide>
    ensures { meaning fraction_of result ≡ less_product limit (fraction_of total) (fraction_of a)
        (whole x) }
{
    if is_nothing(a, x) {
        return Ok(total);
    }
    total.less_product(a, whole(x.into()))
}

/// The total and the product of the leg's fill and x.
fn plus_filled(total: Frac128, leg: BatchLeg<Frac128>, x: i64) -> Result<Frac128, Wide>
    ensures { meaning fraction_of result ≡ plus_filled limit (fraction_of total)
        (leg_fill limit (leg_as fraction_of leg.entry)) x }
{
    let fill = leg_fill(leg)?;
    plus_times(total, fill, x)
}

/// The total and what the leg adds to it, `x` being its entry: its fill times that, or times the
/// positive part without a sign, and its multiplier times it with the leg's sign.
fn add_term(
    total: Frac128,
    leg: BatchLeg<Frac128>,
    sign: i8,
    by: Frac128,
    x: i64,
) -> Result<Frac128, Wide>
    ensures { meaning fraction_of result ≡ add_term limit (fraction_of total)
        (exposure_as leg.entry.exposure) (sign_of sign)
        (leg_fill limit (leg_as fraction_of leg.entry)) (fraction_of by) x }
{
    match leg.exposure {
        Exposure::Long if sign == 0 => plus_filled(total, leg, x.max(0)),
        Exposure::Long if sign > 0 => {
            let sum = plus_filled(total, leg, x)?;
            plus_times(sum, by, x)
        }
        _ => less_times(total, by, x),
    }
}

/// The total and what the leg adds to the sum of entry `i`.
fn add_leg(
    total: Frac128,
    leg: BatchLeg<Frac128>,
    sign: i8,
    by: Frac128,
    i: usize,
) -> Result<Frac128, Wide>
    requires { i < 9 }
    ensures { meaning fraction_of result ≡ add_leg limit i (fraction_of total)
        (record { leg = leg_as fraction_of leg.entry; sign = sign_of sign; by = fraction_of by }) }
{
    add_term(total, leg, sign, by, leg.form.entries[i])
}

/// What all legs add to the entry of a leaf.
fn add_legs(
    orders: &[Order],
    fills: &[Frac128],
    signs: &[i8],
    multipliers: &[Multiplier],
    i: usize,
) -> Result<Frac128, Wide>
    requires fills { length fills.now ≡ length orders.now }
    requires entry { i < 9 }
    ensures { meaning fraction_of result ≡ fold_steps (add_leg limit i) (whole (pos 0))
        (signed_legs 1 (batch_legs fraction_of orders.now fills.now) (map sign_of signs.now)
        (map placed_of multipliers.now)) }
{
    let mut total = Frac128::zero();
    let mut left = LegsLeft {
        orders,
        fills,
        next: 0,
    };
    let mut rest = multipliers;
    for j in 0..signs.len() {
        let Some((leg, after)) = first_leg(left) else {
            return Ok(total);
        };
        let by = first_at(rest, j + 1);
        total = add_leg(total, leg, signs[j], by, i)?;
        left = after;
        rest = left_after(rest, j + 1);
    }
    Ok(total)
}

/// The entry's sum: what the legs add, and in entry 0 less the liability.
fn entry_sum(
    filled: &Filled,
    signs: &[i8],
    multipliers: &[Multiplier],
    i: usize,
) -> Result<Frac128, Wide>
    requires { i < 9 }
    ensures { meaning fraction_of result ≡ entry_sum limit
        (batch_legs fraction_of filled.now.orders.now filled.now.fills.now)
        (fraction_of filled.now.liability.now) (map sign_of signs.now)
        (map placed_of multipliers.now) i }
{
    let total = add_legs(filled.orders, filled.fills, signs, multipliers, i)?;
    if i == 0 {
        total.sub(*filled.liability)
    } else {
        Ok(total)
    }
}

/// Whether none of the entries is above 0.
fn entries_close(filled: &Filled, signs: &[i8], multipliers: &[Multiplier]) -> Result<bool, Wide>
    ensures { result ≡ entries_close limit
        (batch_legs fraction_of filled.now.orders.now filled.now.fills.now)
        (fraction_of filled.now.liability.now) (map sign_of signs.now)
        (map placed_of multipliers.now) 0 filled.now.entries }
{
    for i in 0..filled.entries {
        let sum = entry_sum(filled, signs, multipliers, i)?;
        if sum.sign() > 0 {
            return Ok(false);
        }
    }
    Ok(true)
}

/// Whether a leaf with these multipliers closes: they are placed, those of short legs are within
/// the legs' fills, and none of the entries is above 0.
pub fn leaf_closes(filled: &Filled, signs: &[i8], multipliers: &[Multiplier]) -> Result<bool, Wide>
    ensures { result ≡ leaf_closes limit (filled.now.entries - 1)
        (batch_legs fraction_of filled.now.orders.now filled.now.fills.now)
        (fraction_of filled.now.liability.now) (map sign_of signs.now)
        (map placed_of multipliers.now) }
{
    if !are_placed(filled.orders, filled.fills, signs, multipliers) {
        return Ok(false);
    }
    if !all_keep_within(filled.orders, filled.fills, multipliers)? {
        return Ok(false);
    }
    entries_close(filled, signs, multipliers)
}
