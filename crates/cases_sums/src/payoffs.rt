//! Payoffs, states and premiums: from the text of what is asked to that of the answer, which is
//! empty where nothing is asked.
ghost use Rattle.std.specs.Prelude.{IsTrue, map};
ghost use Rattle.form.specs.Primitive.{IsDirection};
ghost use Rattle.frac.specs.Value.{fraction_of};
ghost use Rattle.settlement.specs.Premium.{IsOrderFill};

use crate::printing::{print_number, print_wide, value_text};
use crate::reading::{Parts, number, numbers, pair, parts};
use crate::signs::{is_any_above_zero, is_none_below_zero};
use exact_num::{Exact, Wide};
use form::{
    Bundle, Form, Leg, MAX_PRICE, Side, State, are_legs, bundle_payoff, call, payoff, primitive,
};
use frac::Frac128;
use settlement::premium;
use std::alloc::{AllocError, Global};

// The weights of a text, with spaces between them.
fn weights(alloc: Global, text: &str) -> Result<Vec<i16>, AllocError> {
    let mut all = Vec::new(alloc);
    for word in text.split_whitespace() {
        all.push(word.parse().unwrap_or(i16::MIN))?;
    }
    Ok(all)
}

// The option of a first entry and of weights.
fn form_of(first: i64, weights: &[i16]) -> Option<Form> {
    if weights.is_empty() || weights.len() > 8 {
        return None;
    }
    let mut form = call(0, weights);
    form.entries[0] = first;
    Some(form)
}

fn form(alloc: Global, text: &str) -> Result<Option<Form>, AllocError> {
    let (first, rest) = pair(text);
    let weights = weights(alloc, rest)?;
    Ok(form_of(first.parse().unwrap_or(i64::MIN), &weights))
}

// Whether these may be the entries of a state.
fn is_direction(entries: &[Frac128]) -> bool
    ensures { IsTrue result → IsDirection (map fraction_of entries.now) }
{
    if entries.len() < 2 {
        return false;
    }
    if entries.len() > 9 {
        return false;
    }
    is_none_below_zero(entries) && is_any_above_zero(entries)
}

fn state_of(entries: &[Frac128]) -> Option<Result<State, Wide>> {
    if is_direction(entries) {
        Some(primitive(entries))
    } else {
        None
    }
}

fn state(alloc: Global, text: &str) -> Result<Option<Result<State, Wide>>, AllocError> {
    let entries = numbers(alloc, text)?;
    Ok(state_of(&entries))
}

fn print_state(text: &mut String, state: &State) -> Result<(), AllocError> {
    for i in 0..state.count as usize {
        print_number(text, (state.entries[i], 1))?;
    }
    Ok(())
}

/// The text of the primitive state of a direction.
pub fn primitive_text(alloc: Global, text: &str) -> Result<String, AllocError> {
    let state = state(alloc, text)?;
    let mut answer = String::new(alloc);
    match state {
        Some(Ok(state)) => print_state(&mut answer, &state)?,
        Some(Err(wide)) => print_wide(&mut answer, &wide)?,
        None => {}
    }
    Ok(answer)
}

// The text of a payoff, if any.
fn pays_text(alloc: Global, pays: Option<Result<i128, Wide>>) -> Result<String, AllocError> {
    match pays {
        Some(Ok(pays)) => value_text(alloc, Ok((pays, 1))),
        Some(Err(wide)) => value_text(alloc, Err(wide)),
        None => Ok(String::new(alloc)),
    }
}

// What an option pays at a state, where it has as many entries.
fn option_pays(
    form: Option<Form>,
    state: Option<Result<State, Wide>>,
) -> Option<Result<i128, Wide>> {
    let (Some(form), Some(Ok(state))) = (form, state) else {
        return None;
    };
    if form.count == state.count {
        Some(payoff(&form, &state))
    } else {
        None
    }
}

/// The text of what an option pays at a primitive state.
pub fn payoff_text(alloc: Global, text: &str) -> Result<String, AllocError> {
    let (option, entries) = text.split_once('|').unwrap_or((text, ""));
    let form = form(alloc, option)?;
    let state = state(alloc, entries)?;
    pays_text(alloc, option_pays(form, state))
}

// The legs of a text, with semicolons between them: the count of each before a colon, and its
// option behind it.
fn legs(alloc: Global, text: &str) -> Result<Vec<Leg>, AllocError> {
    let mut legs = Vec::new(alloc);
    for leg in text.split(';') {
        let (count, option) = leg.split_once(':').unwrap_or((leg, ""));
        if let Some(form) = form(alloc, option)? {
            let count = count.trim().parse().unwrap_or(i16::MIN);
            legs.push(Leg { count, form })?;
        }
    }
    Ok(legs)
}

fn bundle(alloc: Global, text: &str) -> Result<Option<Bundle>, AllocError> {
    let legs = legs(alloc, text)?;
    Ok(if are_legs(&legs) {
        Some(Bundle::from_legs(&legs))
    } else {
        None
    })
}

// What a bundle pays at a state, where its options have as many entries.
fn bundle_pays(
    bundle: Option<Bundle>,
    state: Option<Result<State, Wide>>,
) -> Option<Result<i128, Wide>> {
    let (Some(bundle), Some(Ok(state))) = (bundle, state) else {
        return None;
    };
    if bundle.is_on(state.count - 1) {
        Some(bundle_payoff(&bundle, &state))
    } else {
        None
    }
}

/// The text of what a bundle pays at a primitive state.
pub fn bundle_text(alloc: Global, text: &str) -> Result<String, AllocError> {
    let (options, entries) = text.split_once('|').unwrap_or((text, ""));
    let bundle = bundle(alloc, options)?;
    let state = state(alloc, entries)?;
    pays_text(alloc, bundle_pays(bundle, state))
}

// Whether the fill is 0 to 1,000,000.
fn is_held(fill: &Frac128) -> bool
    ensures { IsTrue result → IsOrderFill (fraction_of fill.now) }
{
    let (numerator, denominator) = fill.parts();
    numerator >= 0 && numerator.unsigned_abs().div_ceil(1_000_000) <= denominator.unsigned_abs()
}

fn side_of(word: &str) -> Option<Side> {
    match word {
        "buy" => Some(Side::Buy),
        "sell" => Some(Side::Sell),
        _ => None,
    }
}

// The premium of a fill and a price within the limits.
fn premium_of(side: &Side, fill: Parts, price: u64) -> Option<u64> {
    let Ok(fill) = number::<Frac128>(fill) else {
        return None;
    };
    if price <= MAX_PRICE && is_held(&fill) {
        Some(premium(side, &fill, price))
    } else {
        None
    }
}

/// The text of the premium of a fill.
pub fn premium_text(alloc: Global, text: &str) -> Result<String, AllocError> {
    let (side, rest) = pair(text);
    let (fill, price) = pair(rest);
    let price = price.parse().unwrap_or(u64::MAX);
    let Some(side) = side_of(side) else {
        return Ok(String::new(alloc));
    };
    match premium_of(&side, parts(fill), price) {
        Some(ticks) => format!(in alloc; "{ticks}"),
        None => Ok(String::new(alloc)),
    }
}
