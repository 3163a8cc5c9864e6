//! The classes of a batch, the kinks of its fills, and their slope.

ghost use Rattle.std.specs.Prelude.{ℕ, ◌≡◌, ◌≤◌, ◌*◌, [], map, slice_set, get_or, length, pos, IfOk, replicate, Ok};
ghost use Rattle.std.specs.List.{All};
ghost use Rattle.exact_num.specs.Fits.{after, meaning, mul_of};
ghost use Rattle.exact_num.specs.Fraction.{whole};
ghost use Rattle.exact_num.specs.Steps.{fold_steps};
ghost use Rattle.frac.specs.Range.{limit};
ghost use Rattle.frac.specs.Value.{fraction_of};
ghost use Rattle.form.specs.declared.orders.Order.{Order};
ghost use Rattle.form.specs.Payoff.{IsOnCount, bundle_of, option_of};
ghost use Rattle.sign_tree.specs.Left.{batch_legs, exposure_as, leg_as};
ghost use Rattle.cell_cover.specs.Classes.{option_in, options_in};
ghost use Rattle.cell_cover.specs.Kinked.{all_as};
ghost use Rattle.cell_cover.specs.Rows.{row_of};
ghost use Rattle.cell_cover.specs.Rowed.{is_same_row, kinked_so_far, kinks_in, row_index, row_step, rows_in, with_fresh, with_one};
ghost use Rattle.cell_cover.specs.Walk.{signed_amount, slope_step};

use crate::factors::class_of;
use crate::rows::{add_each, zero_row};
use crate::signs::is_same;
use crate::vectors::{Class, Row, Sign};
use exact_num::{Exact, Wide};
use form::{Form, Order};
use frac::{Frac128, whole};
use sign_tree::{BatchLeg, Exposure, LegsLeft, first_leg};
use std::alloc::{AllocError, Global};

/// Whether the rows are the same.
fn is_same_row(count: usize, row: &Row, other: &Row) -> bool
    requires { count ≤ 9 }
    ensures { result ≡ is_same_row (row_of count row.now) (row_of count other.now) }
{
    for i in 0..count {
        if !is_same(row.entries[i], other.entries[i]) {
            return false;
        }
    }
    true
}

/// How many classes come before the one with these entries.
fn place_of(count: usize, classes: &[Class], entries: &Row) -> usize
    requires { count ≤ 9 }
    ensures { result ≡ row_index (row_of count entries.now) (rows_in count classes.now) }
{
    for (place, class) in classes.iter().enumerate() {
        if is_same_row(count, entries, &class.entries) {
            return place;
        }
    }
    classes.len()
}

/// Adds the option's class, where it is not among these.
fn add_class(count: usize, classes: &mut Vec<Class>, form: &Form) -> Result<(), AllocError>
    requires { form.now.count ≡ count }
    ensures { IfOk result (λ done. all_as count classes.new.items
        ≡ with_one (all_as count classes.old.items) (option_of form.now)) }
{
    let option = class_of(form);
    if place_of(count, classes.as_slice(), &option.entries) < classes.len() {
        return Ok(());
    }
    classes.push(Class {
        entries: option.entries,
        kink: Frac128::zero(),
    })?;
    Ok(())
}

/// Adds the classes of the order's options that are not among these.
fn add_classes(count: usize, classes: &mut Vec<Class>, order: &Order) -> Result<(), AllocError>
    requires { IsOnCount count order.now.bundle }
    ensures { IfOk result (λ done. all_as count classes.new.items
        ≡ with_fresh (all_as count classes.old.items) (map option_in (bundle_of order.now))) }
{
    for leg in order.bundle.as_slice() {
        add_class(count, classes, &leg.form)?;
    }
    Ok(())
}

/// The classes of the orders as they first come, with nothing owed of them.
pub fn classes_of(alloc: Global, count: usize, orders: &[Order]) -> Result<Vec<Class>, AllocError>
    requires { All (λ (order : Order). IsOnCount count order.bundle) orders.now }
    ensures { IfOk result (λ classes.
        all_as count classes.items ≡ with_fresh [] (options_in orders.now)) }
{
    let mut classes = Vec::new(alloc);
    for order in orders {
        add_classes(count, &mut classes, order)?;
    }
    Ok(classes)
}

/// How much of its class a leg makes the market owe.
fn owed_of(leg: BatchLeg<Frac128>, divisor: u64) -> Result<Frac128, Wide>
    ensures { meaning fraction_of result ≡ after
        (mul_of limit (fraction_of leg.entry.fill) (whole (pos (leg.entry.size * divisor))))
        (λ p. Ok (signed_amount (exposure_as leg.entry.exposure) p)) }
{
    let size = i128::from(leg.size) * i128::from(divisor);
    let amount = leg.fill.mul(whole(size))?;
    Ok(match leg.exposure {
        Exposure::Long => amount,
        Exposure::Short => amount.neg(),
    })
}

/// The slope with a leg that is turned.
fn add_slope(
    count: usize,
    turned: bool,
    slope: &Row,
    owed: Frac128,
    entries: &Row,
) -> Result<Row, Wide>
    requires { count ≤ 9 }
    ensures { meaning (row_of count) result ≡ slope_step limit turned (row_of count slope.now)
        (fraction_of owed) (row_of count entries.now) }
{
    if turned {
        add_each(count, Sign::Minus, slope, owed, entries)
    } else {
        Ok(*slope)
    }
}

/// The kink at the place, and 0 where there is none.
fn kink_in(classes: &[Class], place: usize) -> Frac128
    ensures { fraction_of result ≡ get_or (kinks_in classes.now) place (whole (pos 0)) }
{
    match classes.get(place) {
        Some(class) => class.kink,
        None => Frac128::zero(),
    }
}

/// Writes the kink at the place, where there is one.
fn set_kink(classes: &mut Vec<Class>, place: usize, kink: Frac128)
    ensures rows { (count : ℕ) → rows_in count classes.new.items
        ≡ rows_in count classes.old.items }
    ensures kinks { kinks_in classes.new.items
        ≡ slice_set (kinks_in classes.old.items) place (fraction_of kink) }
{
    if place < classes.len() {
        let entries = classes[place].entries;
        classes[place] = Class { entries, kink };
    }
}

/// Adds what is owed of the leg to the kink of its class, and answers the slope with what it adds.
fn add_leg(
    count: usize,
    classes: &mut Vec<Class>,
    slope: Row,
    leg: BatchLeg<Frac128>,
) -> Result<Row, Wide>
    requires { leg.form.now.count ≡ count }
    ensures rows { rows_in count classes.new.items ≡ rows_in count classes.old.items }
    ensures step { meaning (kinked_so_far count classes.new.items) result
        ≡ row_step limit (rows_in count classes.old.items)
        (kinked_so_far count classes.old.items slope) (leg_as fraction_of leg.entry) }
{
    let option = class_of(leg.form);
    let place = place_of(count, classes.as_slice(), &option.entries);
    let owed = owed_of(leg, option.divisor)?;
    let kink = kink_in(classes.as_slice(), place).add(owed)?;
    let next = add_slope(count, option.turned, &slope, owed, &option.entries)?;
    set_kink(classes, place, kink);
    Ok(next)
}

/// Adds the kinks of the fills to the classes, and answers their slope.
pub fn add_kinks(
    count: usize,
    classes: &mut Vec<Class>,
    orders: &[Order],
    fills: &[Frac128],
) -> Result<Row, Wide>
    requires forms { All (λ (order : Order). IsOnCount count order.bundle) orders.now }
    requires fills { length fills.now ≡ length orders.now }
    requires few { count ≤ 9 }
    ensures rows { rows_in count classes.new.items ≡ rows_in count classes.old.items }
    ensures steps { meaning (kinked_so_far count classes.new.items) result
        ≡ fold_steps (row_step limit (rows_in count classes.old.items))
        (record { kinks = kinks_in classes.old.items; slope = replicate count (whole (pos 0)) })
        (batch_legs fraction_of orders.now fills.now) }
{
    let mut slope = zero_row();
    let mut left = LegsLeft {
        orders,
        fills,
        next: 0,
    };
    while let Some((leg, rest)) = first_leg(left) {
        slope = add_leg(count, classes, slope, leg)?;
        left = rest;
    }
    Ok(slope)
}
