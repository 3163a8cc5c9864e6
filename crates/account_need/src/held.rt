//! What the positions of an account owe of each option.
ghost use Rattle.std.specs.Prelude.{◌≡◌, ◌≤◌, ◌*◌, ◌^◌, ◌++◌, ℕ, List, IfOk, OnOk, drop, length, map, unsigned_abs};
ghost use Rattle.settlement.specs.declared.position.Position.{Position};
ghost use Rattle.std.specs.List.{All, list_any};
ghost use Rattle.arithmetic.specs.Sums.{total};
ghost use Rattle.form.specs.Payoff.{bundle_legs, option_of};
ghost use Rattle.form.specs.Vector.{is_same_option};
ghost use Rattle.settlement.specs.Positions.{IsHeldPosition};
ghost use Rattle.account_need.specs.Prices.{IsPositionOn, IsSumOn, option_sum};
ghost use Rattle.account_need.specs.Rounded.{each_once, option_in, options_at, options_of, part_owed, sum_of, sums_held, sums_of};

use crate::shares::{is_same, part_owed};
use crate::sums::FormSum;
use form::{Bundle, Form};
use settlement::Position;
use std::alloc::{AllocError, Global};

// Whether the option is one of theirs.
fn has(sums: &[FormSum], form: &Form) -> bool
    ensures { result ≡ list_any (λ v. is_same_option v (option_of form.now))
        (map option_in (map option_sum sums.now)) }
{
    for item in sums {
        if is_same(&item.form, form) {
            return true;
        }
    }
    false
}

// What all of them owe of the option.
fn sum_of(positions: &[Position], form: &Form) -> i128
    requires held { All IsHeldPosition positions.now }
    requires few { length positions.now ≤ 2 ^ 24 }
    ensures sum { result ≡ total (part_owed (option_of form.now)) positions.now }
    ensures small { unsigned_abs result ≤ length positions.now * 4294967296000000 }
{
    let mut total: i128 = 0;
    for position in positions {
        total += part_owed(position, form);
    }
    total
}

// The options of a position that are not there go last, with what it and the positions after it
// owe: those before it have none of them.
fn add_sums(sums: &mut Vec<FormSum>, bundle: &Bundle, left: &[Position]) -> Result<(), AllocError>
    requires held { All IsHeldPosition left.now }
    requires few { length left.now ≤ 2 ^ 24 }
    ensures { OnOk result ((before : List Position) → map option_sum sums.old.items
        ≡ map (sum_of (before ++ left.now)) (each_once (options_at before))
        → map option_sum sums.new.items ≡ map (sum_of (before ++ left.now))
        (each_once (options_at before ++ options_of (bundle_legs bundle.now)))) }
{
    for leg in bundle.as_slice() {
        if !has(sums, &leg.form) {
            let sum = sum_of(left, &leg.form);
            sums.push(FormSum {
                form: leg.form,
                sum,
            })?;
        }
    }
    Ok(())
}

// The positions from a place on.
fn from_place(positions: &[Position], place: usize) -> &[Position]
    requires { place ≤ length positions.now }
    ensures { result.now ≡ drop place positions.now }
{
    &positions[place..]
}

// What the positions owe of each option, the options in the order in which they first come.
fn sums_held(alloc: Global, positions: &[Position]) -> Result<Vec<FormSum>, AllocError>
    requires held { All IsHeldPosition positions.now }
    requires few { length positions.now ≤ 2 ^ 24 }
    ensures { IfOk result (λ sums. map option_sum sums.items ≡ sums_held positions.now) }
{
    let mut sums = Vec::new(alloc);
    for before in 0..positions.len() {
        let left = from_place(positions, before);
        add_sums(&mut sums, &positions[before].bundle, left)?;
    }
    Ok(sums)
}

/// What the positions owe of each option, in whole numbers of 2^-32, the options in the order in
/// which they first come; one of which nothing is owed is left out. The positions are those of one
/// account in one market, and at most 2^24. So a sum is at most 2^56 * 10^6 in size. The only error
/// is want of memory.
pub fn form_sums(alloc: Global, positions: &[Position]) -> Result<Vec<FormSum>, AllocError>
    requires held { All IsHeldPosition positions.now }
    requires few { length positions.now ≤ 2 ^ 24 }
    ensures sums { IfOk result (λ sums. map option_sum sums.items ≡ sums_of positions.now) }
    ensures on { (count : ℕ) → All (IsPositionOn count) positions.now
        → IfOk result (λ sums. All (IsSumOn count) sums.items) }
{
    let held = sums_held(alloc, positions)?;
    let mut sums = Vec::new(alloc);
    for item in &held {
        if item.sum != 0 {
            sums.push(*item)?;
        }
    }
    Ok(sums)
}
