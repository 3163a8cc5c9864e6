//! The check of one leaf.

ghost use Rattle.std.specs.Prelude.{◌≡◌, ◌<◌, ◌-◌, ◌||◌, ◌&&◌, map};
ghost use Rattle.std.specs.List.{list_all};
ghost use Rattle.exact_num.specs.Fits.{meaning};
ghost use Rattle.exact_num.specs.Steps.{fold_steps};
ghost use Rattle.frac.specs.Range.{limit};
ghost use Rattle.frac.specs.Value.{fraction_of};
ghost use Rattle.exact_num.specs.Fraction.{negated};
ghost use Rattle.exact_num.specs.Tests.{is_at_most, is_below_zero};
ghost use Rattle.cell_cover.specs.Closed.{has_sign, is_in, known_at};
ghost use Rattle.cell_cover.specs.Read.{multiplier_of};
ghost use Rattle.cell_cover.specs.Kinked.{cell_as, classes_as, knowledge_as};
ghost use Rattle.cell_cover.specs.Walk.{add_full, add_multiplier, entries_close, entry_sum, leaf_closes, may_be_full, may_stand, walk_class_at};

use crate::cover::Multiplier;
use crate::kinked::{Cell, Kinked};
use crate::lookups::{counted_sign, entry_at, has_sign, index_of, kink_at};
use crate::rows::add_signed;
use crate::signs::{is_above_zero, is_not_below_zero};
use crate::vectors::Knowledge;
use exact_num::{Exact, Wide, plus_product};
use frac::Frac128;

/// Whether the class is among these.
fn is_in(class: u32, classes: &[u32]) -> bool
    ensures { result ≡ is_in class classes.now }
{
    for other in classes {
        if *other == class {
            return true;
        }
    }
    false
}

/// Whether the class has no sign, and a kink below 0.
fn may_be_full(kinked: Kinked, known: &[Knowledge], class: u32) -> bool
    ensures { result ≡ may_be_full (classes_as kinked.entry)
        (knowledge_as kinked.entry.entries known.now) class }
{
    let i = index_of(class);
    match (known.get(i), kinked.classes.get(i)) {
        (Some(Knowledge::Bounded(_)), Some(class)) => class.kink.sign() < 0,
        _ => false,
    }
}

/// Whether the kink is below 0, and the multiplier at most its size.
fn is_within(by: Frac128, kink: Frac128) -> bool
    ensures { result ≡ (is_below_zero (fraction_of kink)
        && is_at_most (fraction_of by) (negated (fraction_of kink))) }
{
    kink.sign() < 0 && by <= kink.neg()
}

/// Whether the class has a sign, or a kink below 0 of which the multiplier is at most the size.
fn is_allowed(kinked: Kinked, known: &[Knowledge], multiplier: &Multiplier) -> bool
    ensures { result
        ≡ (has_sign (known_at (knowledge_as kinked.entry.entries known.now) multiplier.now.class)
        || (is_below_zero (walk_class_at (classes_as kinked.entry) multiplier.now.class).kink
        && is_at_most (fraction_of multiplier.now.by)
        (negated (walk_class_at (classes_as kinked.entry) multiplier.now.class).kink))) }
{
    let signed = has_sign(known, multiplier.class);
    let within = is_within(multiplier.by, kink_at(kinked.classes, multiplier.class));
    signed || within
}

/// Whether the multiplier is within what its class allows, and the class not among the full ones.
fn may_stand(kinked: Kinked, known: &[Knowledge], full: &[u32], multiplier: &Multiplier) -> bool
    ensures { result ≡ may_stand (classes_as kinked.entry)
        (knowledge_as kinked.entry.entries known.now) full.now (multiplier_of multiplier.now) }
{
    !is_in(multiplier.class, full)
        && is_not_below_zero(multiplier.by)
        && is_allowed(kinked, known, multiplier)
}

/// Whether each class may stand with its whole kink.
fn may_all_be_full(kinked: Kinked, known: &[Knowledge], full: &[u32]) -> bool
    ensures { result ≡ list_all (may_be_full (classes_as kinked.entry)
        (knowledge_as kinked.entry.entries known.now)) full.now }
{
    for class in full {
        if !may_be_full(kinked, known, *class) {
            return false;
        }
    }
    true
}

/// Whether each multiplier may stand.
fn may_all_stand(
    kinked: Kinked,
    known: &[Knowledge],
    full: &[u32],
    multipliers: &[Multiplier],
) -> bool
    ensures { result ≡ list_all (may_stand (classes_as kinked.entry)
        (knowledge_as kinked.entry.entries known.now) full.now) (map multiplier_of multipliers.now) }
{
    for multiplier in multipliers {
        if !may_stand(kinked, known, full, multiplier) {
            return false;
        }
    }
    true
}

/// The total and what the classes with their whole kinks add to the entry.
fn add_full(kinked: Kinked, full: &[u32], start: Frac128, i: usize) -> Result<Frac128, Wide>
    requires { i < kinked.entries }
    ensures { meaning fraction_of result ≡ fold_steps (add_full limit (classes_as kinked.entry) i)
        (fraction_of start) full.now }
{
    let mut total = start;
    for class in full {
        let kink = kink_at(kinked.classes, *class);
        total = plus_product(total, kink, entry_at(kinked, *class, i))?;
    }
    Ok(total)
}

/// The total and what the multipliers add to the entry.
fn add_multipliers(
    kinked: Kinked,
    known: &[Knowledge],
    multipliers: &[Multiplier],
    start: Frac128,
    i: usize,
) -> Result<Frac128, Wide>
    requires { i < kinked.entries }
    ensures { meaning fraction_of result ≡ fold_steps (add_multiplier limit (classes_as kinked.entry)
        (knowledge_as kinked.entry.entries known.now) i) (fraction_of start)
        (map multiplier_of multipliers.now) }
{
    let mut total = start;
    for multiplier in multipliers {
        let entry = entry_at(kinked, multiplier.class, i);
        let sign = counted_sign(known, multiplier.class);
        total = add_signed(sign, total, multiplier.by, entry)?;
    }
    Ok(total)
}

/// The entry's sum, and in entry 0 less the liability.
fn entry_sum(
    kinked: Kinked,
    cell: Cell,
    full: &[u32],
    multipliers: &[Multiplier],
    i: usize,
) -> Result<Frac128, Wide>
    requires { i < kinked.entries }
    ensures { meaning fraction_of result ≡ entry_sum limit (classes_as kinked.entry)
        (fraction_of kinked.entry.liability.now) (cell_as kinked.entry.entries cell.entry)
        full.now (map multiplier_of multipliers.now) i }
{
    let with_full = add_full(kinked, full, cell.sums.entries[i], i)?;
    let total = add_multipliers(kinked, cell.known, multipliers, with_full, i)?;
    if i == 0 {
        total.sub(*kinked.liability)
    } else {
        Ok(total)
    }
}

/// Whether none of the entries is above 0.
fn entries_close(
    kinked: Kinked,
    cell: Cell,
    full: &[u32],
    multipliers: &[Multiplier],
) -> Result<bool, Wide>
    ensures { result ≡ entries_close limit (classes_as kinked.entry)
        (fraction_of kinked.entry.liability.now) (cell_as kinked.entry.entries cell.entry)
        full.now (map multiplier_of multipliers.now) 0 kinked.entry.entries }
{
    for i in 0..kinked.entries {
        let sum = entry_sum(kinked, cell, full, multipliers, i)?;
        if is_above_zero(sum) {
            return Ok(false);
        }
    }
    Ok(true)
}

/// Whether a leaf with these closes: they may stand, and no entry is above 0.
pub fn leaf_closes(
    kinked: Kinked,
    cell: Cell,
    full: &[u32],
    multipliers: &[Multiplier],
) -> Result<bool, Wide>
    ensures { result ≡ leaf_closes limit (kinked.entry.entries - 1) (classes_as kinked.entry)
        (fraction_of kinked.entry.liability.now) (cell_as kinked.entry.entries cell.entry)
        full.now (map multiplier_of multipliers.now) }
{
    if may_all_be_full(kinked, cell.known, full)
        && may_all_stand(kinked, cell.known, full, multipliers)
    {
        entries_close(kinked, cell, full, multipliers)
    } else {
        Ok(false)
    }
}
