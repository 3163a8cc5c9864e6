//! Classes by their numbers, which are counted from 1.

ghost use Rattle.std.specs.Prelude.{◌≡◌, ◌-◌, ◌<◌, ℕ, length, map, MatchOption, None, Some, slice_get, true};
ghost use Rattle.std.specs.Option.{option_map};
ghost use Rattle.frac.specs.Value.{fraction_of};
ghost use Rattle.cell_cover.specs.Closed.{has_sign, known_at};
ghost use Rattle.cell_cover.specs.Kinked.{classes_as, knowledge_as};
ghost use Rattle.cell_cover.specs.Mixed.{IsUnsigned, counted_sign, sign_in};
ghost use Rattle.cell_cover.specs.Rows.{class_as, known_as, sign_as};
ghost use Rattle.cell_cover.specs.Walk.{entry_at, walk_class_at};

use crate::kinked::Kinked;
use crate::vectors::{Class, Knowledge, Row, Sign};
use exact_num::Exact;
use frac::Frac128;

/// The index of a class that is counted from 1.
pub fn index_of(class: u32) -> usize
    ensures { result ≡ class - 1 }
{
    (class as usize).saturating_sub(1)
}

/// The class of this number, where there is one.
pub fn class_at(classes: &[Class], class: u32) -> Option<&Class>
    ensures { MatchOption result (slice_get classes.now (class - 1) ≡ None)
        (λ found. slice_get classes.now (class - 1) ≡ Some found.now) }
{
    classes.get(index_of(class))
}

/// The sign of the class, where it has one. A class that there is not counts as one with minus.
pub fn sign_at(known: &[Knowledge], class: u32) -> Option<Sign>
    ensures { (count : ℕ) → option_map sign_as result
        ≡ sign_in (known_at (map (known_as count) known.now) class) }
{
    match known.get(index_of(class)) {
        Some(Knowledge::Signed(sign)) => Some(*sign),
        Some(Knowledge::Bounded(_)) => None,
        None => Some(Sign::Minus),
    }
}

/// Whether the class has a sign.
pub fn has_sign(known: &[Knowledge], class: u32) -> bool
    ensures { (count : ℕ) → result ≡ has_sign (known_at (map (known_as count) known.now) class) }
{
    sign_at(known, class).is_some()
}

/// The sign with which a multiplier of the class counts: minus without one.
pub fn counted_sign(known: &[Knowledge], class: u32) -> Sign
    ensures { (count : ℕ) → sign_as result
        ≡ counted_sign (known_at (map (known_as count) known.now) class) }
{
    match sign_at(known, class) {
        Some(sign) => sign,
        None => Sign::Minus,
    }
}

/// The kink of the class, and 0 where there is none.
pub fn kink_at(classes: &[Class], class: u32) -> Frac128
    ensures { (count : ℕ) → fraction_of result
        ≡ (walk_class_at (map (class_as count) classes.now) class).kink }
{
    match classes.get(index_of(class)) {
        Some(class) => class.kink,
        None => Frac128::zero(),
    }
}

/// The entry of the class, and 0 where there is none.
pub fn entry_at(kinked: Kinked, class: u32, i: usize) -> Frac128
    requires { i < kinked.entries }
    ensures { fraction_of result ≡ entry_at (classes_as kinked.entry) class i }
{
    match kinked.classes.get(index_of(class)) {
        Some(class) => class.entries.entries[i],
        None => Frac128::zero(),
    }
}

/// The class of this number and its bound, where it has no sign.
pub fn unsigned(kinked: Kinked, known: &[Knowledge], number: u32) -> Option<(Class, Row)>
    requires { length known.now ≡ length kinked.classes.now }
    ensures { MatchOption result
        (has_sign (known_at (knowledge_as kinked.entry.entries known.now) number) ≡ true)
        (IsUnsigned kinked.entry.classes.now known.now number) }
{
    let i = index_of(number);
    match (kinked.classes.get(i), known.get(i)) {
        (Some(class), Some(Knowledge::Bounded(bound))) => Some((*class, *bound)),
        _ => None,
    }
}
