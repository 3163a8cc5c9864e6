//! The bound of a class by those with a sign, and the sums with it.

ghost use Rattle.std.specs.Prelude.{ℕ, ◌≡◌, ◌≤◌, MatchOption, false, map, None, Some, Ok};
ghost use Rattle.std.specs.Option.{option_map};
ghost use Rattle.exact_num.specs.Fits.{after, meaning};
ghost use Rattle.frac.specs.Range.{limit};
ghost use Rattle.frac.specs.Value.{fraction_of};
ghost use Rattle.cell_cover.specs.Read.{multiplier_of};
ghost use Rattle.cell_cover.specs.Rows.{class_as, known_as, row_of, sign_as};
ghost use Rattle.cell_cover.specs.Kinked.{classes_as, knowledge_as};
ghost use Rattle.cell_cover.specs.Mixed.{MixesWith, bound_by, greater_mixed, mix_one, mixed_bound, rebound};
ghost use Rattle.cell_cover.specs.Walk.{greater_each, may_mix, mixed, plus_each, then_with, with_bound, without_bound};

use crate::cover::Multiplier;
use crate::kinked::{Cell, Kinked};
use crate::lookups::{class_at, sign_at};
use crate::rows::{add_each, greater_each, zero_row};
use crate::signs::{is_above_zero, is_not_below_zero};
use crate::vectors::{Class, Knowledge, Row, Sign};
use exact_num::{Exact, Wide};
use frac::Frac128;

/// The sums and the bound, or the sums less it: a bound counts where the kink is above 0.
pub fn with_bound(
    entries: usize,
    sign: Sign,
    kink: Frac128,
    bound: &Row,
    sums: &Row,
) -> Result<Row, Wide>
    requires { entries ≤ 9 }
    ensures { meaning (row_of entries) result ≡ bound_by limit (sign_as sign) (fraction_of kink)
        (row_of entries bound.now) (row_of entries sums.now) }
{
    if is_above_zero(kink) {
        add_each(entries, sign, sums, kink, bound)
    } else {
        Ok(*sums)
    }
}

/// The sums on the plus side of a class with this bound.
pub fn plus_sums(entries: usize, class: &Class, bound: &Row, sums: &Row) -> Result<Row, Wide>
    requires { entries ≤ 9 }
    ensures { meaning (row_of entries) result ≡ after
        (without_bound limit (class_as entries class.now).kink (row_of entries bound.now)
        (row_of entries sums.now))
        (λ sums. plus_each limit sums (class_as entries class.now).kink
        (class_as entries class.now).entries) }
{
    let rest = with_bound(entries, Sign::Minus, class.kink, bound, sums)?;
    add_each(entries, Sign::Plus, &rest, class.kink, &class.entries)
}

/// The sums with another bound of a class.
fn bound_sums(
    entries: usize,
    kink: Frac128,
    bound: &Row,
    next: &Row,
    sums: &Row,
) -> Result<Row, Wide>
    requires { entries ≤ 9 }
    ensures { meaning (row_of entries) result ≡ after
        (without_bound limit (fraction_of kink) (row_of entries bound.now)
        (row_of entries sums.now))
        (with_bound limit (fraction_of kink) (row_of entries next.now)) }
{
    let rest = with_bound(entries, Sign::Minus, kink, bound, sums)?;
    with_bound(entries, Sign::Plus, kink, next, &rest)
}

/// The sign of the multiplier's class, where it has one and the multiplier is not below 0.
fn mixing_sign(known: &[Knowledge], multiplier: &Multiplier) -> Option<Sign>
    ensures { (count : ℕ) → MatchOption result
        (may_mix (map (known_as count) known.now) (multiplier_of multiplier.now) ≡ false)
        (MixesWith (map (known_as count) known.now) (multiplier_of multiplier.now)) }
{
    if is_not_below_zero(multiplier.by) {
        sign_at(known, multiplier.class)
    } else {
        None
    }
}

/// The totals and a multiple of a class with a sign.
fn mix_one(
    kinked: Kinked,
    known: &[Knowledge],
    totals: &Row,
    multiplier: &Multiplier,
) -> Result<Option<Row>, Wide>
    ensures { meaning (option_map (row_of kinked.entry.entries)) result
        ≡ mix_one limit (classes_as kinked.entry) (knowledge_as kinked.entry.entries known.now)
        (row_of kinked.entry.entries totals.now) (multiplier_of multiplier.now) }
{
    let Some(class) = class_at(kinked.classes, multiplier.class) else {
        return Ok(None);
    };
    let Some(sign) = mixing_sign(known, multiplier) else {
        return Ok(None);
    };
    let next = add_each(kinked.entries, sign, totals, multiplier.by, &class.entries)?;
    Ok(Some(next))
}

/// The totals and a mixture of classes with a sign. None where one has none, or a multiplier is
/// below 0.
fn mixed(
    kinked: Kinked,
    known: &[Knowledge],
    start: &Row,
    multipliers: &[Multiplier],
) -> Result<Option<Row>, Wide>
    ensures { meaning (option_map (row_of kinked.entry.entries)) result
        ≡ mixed limit (classes_as kinked.entry) (knowledge_as kinked.entry.entries known.now)
        (row_of kinked.entry.entries start.now) (map multiplier_of multipliers.now) }
{
    let mut totals = *start;
    for multiplier in multipliers {
        match mix_one(kinked, known, &totals, multiplier)? {
            Some(next) => totals = next,
            None => return Ok(None),
        }
    }
    Ok(Some(totals))
}

/// The greater of the first vector and of a mixture.
fn greater_than_mixed(
    kinked: Kinked,
    known: &[Knowledge],
    first: &Row,
    start: &Row,
    multipliers: &[Multiplier],
) -> Result<Option<Row>, Wide>
    ensures { meaning (option_map (row_of kinked.entry.entries)) result ≡ then_with
        (mixed limit (classes_as kinked.entry) (knowledge_as kinked.entry.entries known.now)
        (row_of kinked.entry.entries start.now) (map multiplier_of multipliers.now)) None
        (λ second. Ok (Some (greater_each (row_of kinked.entry.entries first.now) second))) }
{
    let Some(second) = mixed(kinked, known, start, multipliers)? else {
        return Ok(None);
    };
    Ok(Some(greater_each(kinked.entries, first, &second)))
}

/// The greater of a mixture, and of the class with these entries and another.
fn greater_mixed(
    kinked: Kinked,
    known: &[Knowledge],
    start: &Row,
    entries: &Row,
    minus: &[Multiplier],
    plus: &[Multiplier],
) -> Result<Option<Row>, Wide>
    ensures { meaning (option_map (row_of kinked.entry.entries)) result
        ≡ greater_mixed limit (classes_as kinked.entry)
        (knowledge_as kinked.entry.entries known.now) (row_of kinked.entry.entries start.now)
        (row_of kinked.entry.entries entries.now)
        (map multiplier_of minus.now) (map multiplier_of plus.now) }
{
    let Some(first) = mixed(kinked, known, start, plus)? else {
        return Ok(None);
    };
    greater_than_mixed(kinked, known, &first, entries, minus)
}

/// The bound of the class with these entries.
fn mixed_bound(
    kinked: Kinked,
    known: &[Knowledge],
    entries: &Row,
    minus: &[Multiplier],
    plus: &[Multiplier],
) -> Result<Option<Row>, Wide>
    ensures { meaning (option_map (row_of kinked.entry.entries)) result
        ≡ mixed_bound limit kinked.entry.entries (classes_as kinked.entry)
        (knowledge_as kinked.entry.entries known.now) (row_of kinked.entry.entries entries.now)
        (map multiplier_of minus.now) (map multiplier_of plus.now) }
{
    let zeros = zero_row();
    greater_mixed(kinked, known, &zeros, entries, minus, plus)
}

/// Another bound of a class, and the sums with it.
pub fn rebound(
    kinked: Kinked,
    cell: Cell,
    class: &Class,
    before: &Row,
    minus: &[Multiplier],
    plus: &[Multiplier],
) -> Result<Option<(Row, Row)>, Wide>
    ensures { meaning
        (option_map (λ p. (row_of kinked.entry.entries p.0, row_of kinked.entry.entries p.1))) result
        ≡ rebound limit (fraction_of class.now.kink) (row_of kinked.entry.entries before.now)
        (row_of kinked.entry.entries cell.entry.sums.now)
        (mixed_bound limit kinked.entry.entries (classes_as kinked.entry)
        (knowledge_as kinked.entry.entries cell.entry.known.now)
        (row_of kinked.entry.entries class.now.entries)
        (map multiplier_of minus.now) (map multiplier_of plus.now)) }
{
    let Some(next) = mixed_bound(kinked, cell.known, &class.entries, minus, plus)? else {
        return Ok(None);
    };
    let sums = bound_sums(kinked.entries, class.kink, before, &next, cell.sums)?;
    Ok(Some((next, sums)))
}
