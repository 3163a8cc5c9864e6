//! The rows of the master program of a batch over the states of its market.
ghost use Rattle.std.specs.Prelude.{◌≡◌, ◌≤◌, ◌<◌, ◌+◌, ◌^◌, ◌-◌, ◌-ℤ◌, ◌*ℤ◌, true, IfOk, OnOk, pos, length, map, unsigned_abs, vec_capacity, vec_len};
ghost use Rattle.std.specs.List.{All};
ghost use Rattle.exact_num.specs.Fits.{meaning, whole_of};
ghost use Rattle.exact_num.specs.Fraction.{IsNotBelowZero, whole};
ghost use Rattle.frac.specs.Range.{limit};
ghost use Rattle.form.specs.Payoff.{IsOnCount, option_of};
ghost use Rattle.form.specs.States.{vector_of};
ghost use Rattle.form.specs.Vector.{scale_of};
ghost use Rattle.simplex_run.specs.Places.{unit_row};
ghost use Rattle.master_program.specs.Master.{map_steps, cost_steps, entry_steps, order_payoff, payoff_at_zero, quantity_steps, row_steps, signed_for, strike_payoff};
ghost use Rattle.pricing_oracle.specs.Filled.{HasFilled, HasMade};
ghost use Rattle.constraint_generation.specs.Entry.{entry_over, put_aside, whole_less};
ghost use Rattle.constraint_generation.specs.Parts.{costs_steps};

use exact_num::{Exact, Wide};
use form::{Form, Leg, Order, Side, State, bundle_payoff};
use lists::push_within;

/// The most states of a master program, the one where all prices are 0 among them.
pub const MAX_STATES: usize = 99_744;

/// The number for a buy, and its opposite for a sell.
pub(crate) fn for_side<N: Exact>(side: Side, number: N) -> N
    ensures { N.fraction result ≡ signed_for side (N.fraction number) }
{
    match side {
        Side::Buy => number,
        Side::Sell => number.neg(),
    }
}

/// What an option pays where all prices are 0.
fn strike_payoff(form: &Form) -> i128
    ensures payoff { result ≡ pos (strike_payoff (option_of form.now)) }
    ensures small { unsigned_abs result ≤ 2 ^ 63 }
{
    i128::from(form.entries[0]).max(0)
}

/// What a leg pays there.
fn leg_payoff(leg: &Leg) -> i128
    ensures payoff { result ≡ leg.now.count *ℤ pos (strike_payoff (option_of leg.now.form)) }
    ensures small { unsigned_abs result ≤ 2 ^ 78 }
{
    i128::from(leg.count) * strike_payoff(&leg.form)
}

/// What the bundle of an order pays there.
fn payoff_at_zero(order: &Order) -> i128
    ensures { result ≡ payoff_at_zero order.now }
{
    let mut total = 0;
    for leg in order.bundle.as_slice() {
        total += leg_payoff(leg);
    }
    total
}

/// The same as an exact number.
pub(crate) fn exact_at_zero<N: Exact>(order: &Order) -> Result<N, Wide>
    ensures { meaning N.fraction result ≡ whole_of (unsigned_abs N.LIMIT)
        (payoff_at_zero order.now) }
{
    N::from_whole(payoff_at_zero(order))
}

/// The t of a state `(t, s)`.
fn scale<N: Exact>(state: &State) -> Result<N, Wide>
    ensures { meaning N.fraction result ≡ whole_of (unsigned_abs N.LIMIT)
        (pos (scale_of (vector_of state.now))) }
{
    N::from_whole(state.entries[0])
}

/// What one unit of an order earns when its payoff at the first state is put aside.
#[tactic(auto, unfolding(master_program::specs::Master::cost_steps))]
fn cost<N: Exact>(order: &Order) -> Result<N, Wide>
    ensures { meaning N.fraction result ≡ cost_steps (unsigned_abs N.LIMIT) order.now }
{
    let price = N::from_whole(i128::from(order.price))?;
    let first = exact_at_zero(order)?;
    let cost = price.sub(first)?;
    Ok(for_side(order.side, cost))
}

/// What is put aside for one unit of an order at a state: t times its payoff at the first state.
fn put_aside<N: Exact>(order: &Order, state: &State) -> Result<N, Wide>
    ensures { meaning N.fraction result ≡ put_aside (unsigned_abs N.LIMIT)
        (vector_of state.now) order.now }
{
    let t: N = scale(state)?;
    let first = exact_at_zero(order)?;
    t.mul(first)
}

/// The whole number `v` less another number.
fn less<N: Exact>(v: i128, number: N) -> Result<N, Wide>
    ensures { meaning N.fraction result ≡ whole_less (unsigned_abs N.LIMIT) v (N.fraction number) }
{
    let whole = N::from_whole(v)?;
    whole.sub(number)
}

/// What the bundle of an order pays at a state.
fn order_payoff(order: &Order, state: &State) -> Result<i128, Wide>
    requires { IsOnCount state.now.count order.now.bundle }
    ensures { meaning whole result ≡ order_payoff limit order.now (vector_of state.now) }
{
    bundle_payoff(&order.bundle, state)
}

/// Whether the number is of 32 bits.
fn is_short(v: i128) -> bool
    ensures { result ≡ true → unsigned_abs v ≤ 2 ^ 31 }
{
    i32::try_from(v).is_ok()
}

/// `owed - t * first`, all three of 32 bits.
fn short_difference(owed: i128, t: i128, first: i128) -> i128
    requires owed { unsigned_abs owed ≤ 2 ^ 31 }
    requires t { unsigned_abs t ≤ 2 ^ 31 }
    requires first { unsigned_abs first ≤ 2 ^ 31 }
    ensures value { result ≡ owed -ℤ (t *ℤ first) }
    ensures small { unsigned_abs result ≤ 2 ^ 63 - 1 }
{
    owed - t * first
}

/// What one unit of an order that pays `owed` at a state owes there above what is put aside for it,
/// step by step.
fn entry_by_steps<N: Exact>(order: &Order, state: &State, owed: i128) -> Result<N, Wide>
    ensures { meaning N.fraction result ≡ entry_over (unsigned_abs N.LIMIT)
        (vector_of state.now) order.now owed }
{
    let aside = put_aside(order, state)?;
    let entry = less(owed, aside)?;
    Ok(for_side(order.side, entry))
}

/// The same: of short numbers each step fits, so that it is taken in as a whole number.
fn entry_over<N: Exact>(order: &Order, state: &State, owed: i128) -> Result<N, Wide>
    ensures { meaning N.fraction result ≡ entry_over (unsigned_abs N.LIMIT)
        (vector_of state.now) order.now owed }
{
    let t = state.entries[0];
    let first = payoff_at_zero(order);
    if N::LIMIT < i64::MAX.into() || !is_short(owed) || !is_short(t) || !is_short(first) {
        return entry_by_steps(order, state, owed);
    }
    let entry = N::from_whole(short_difference(owed, t, first))?;
    Ok(for_side(order.side, entry))
}

/// What one unit of an order owes at a state above what is put aside for it.
#[tactic(auto, unfolding(master_program::specs::Master::entry_steps))]
fn entry<N: Exact>(order: &Order, state: &State) -> Result<N, Wide>
    requires { IsOnCount state.now.count order.now.bundle }
    ensures { meaning N.fraction result ≡ entry_steps limit (unsigned_abs N.LIMIT)
        (vector_of state.now) order.now }
{
    let owed = order_payoff(order, state)?;
    entry_over(order, state, owed)
}

/// Adds the costs of the orders.
fn add_costs<N: Exact>(row: &mut Vec<N>, orders: &[Order]) -> Result<(), Wide>
    requires { vec_len row.old + length orders.now ≤ vec_capacity row.old }
    ensures added { HasFilled (map N.fraction row.old.items)
        (map_steps (cost_steps (unsigned_abs N.LIMIT)) orders.now) result
        (map N.fraction row.new.items) }
    ensures len { OnOk result (vec_len row.new ≡ vec_len row.old + length orders.now) }
    ensures capacity { vec_capacity row.old ≤ vec_capacity row.new }
{
    for order in orders {
        push_within(row, cost(order)?);
    }
    Ok(())
}

/// Writes the costs of the orders, and 1 lost for each unit of the slack.
pub(crate) fn write_costs<N: Exact>(row: &mut Vec<N>, orders: &[Order]) -> Result<(), Wide>
    requires { length orders.now + 1 ≤ vec_capacity row.old }
    ensures written { HasMade (λ _. map N.fraction row.new.items)
        (costs_steps (unsigned_abs N.LIMIT) orders.now) result }
    ensures capacity { vec_capacity row.old ≤ vec_capacity row.new }
{
    row.clear();
    add_costs(row, orders)?;
    push_within(row, N::one().neg());
    Ok(())
}

/// The quantity of an order.
pub(crate) fn quantity<N: Exact>(order: &Order) -> Result<N, Wide>
    ensures quantity { meaning N.fraction result ≡ quantity_steps (unsigned_abs N.LIMIT) order.now }
    ensures sign { IfOk result (λ number. IsNotBelowZero (N.fraction number)) }
{
    N::from_whole(i128::from(order.quantity))
}

/// Writes the row of a quantity: of its `count` entries its own is 1, the others 0.
pub(crate) fn write_unit_row<N: Exact>(row: &mut Vec<N>, count: usize, own: usize)
    requires { count ≤ vec_capacity row.old }
    ensures row { map N.fraction row.new.items ≡ unit_row count own }
    ensures capacity { vec_capacity row.old ≤ vec_capacity row.new }
{
    row.clear();
    for k in 0..count {
        let entry = if k == own { N::one() } else { N::zero() };
        push_within(row, entry);
    }
}

/// Moves the 1 of the row of a quantity to the place behind it.
pub(crate) fn move_one<N: Exact>(row: &mut Vec<N>, own: usize)
    requires place { own + 1 < length row.old.items }
    requires unit { map N.fraction row.old.items ≡ unit_row (length row.old.items) own }
    ensures row { map N.fraction row.new.items ≡ unit_row (length row.old.items) (own + 1) }
    ensures capacity { vec_capacity row.old ≤ vec_capacity row.new }
{
    row[own] = N::zero();
    row[own + 1] = N::one();
}

/// Adds the entries of the orders in the row of a state.
fn add_entries<N: Exact>(row: &mut Vec<N>, orders: &[Order], state: &State) -> Result<(), Wide>
    requires forms { All (λ o. IsOnCount state.now.count o.bundle) orders.now }
    requires room { vec_len row.old + length orders.now ≤ vec_capacity row.old }
    ensures added { HasFilled (map N.fraction row.old.items)
        (map_steps (entry_steps limit (unsigned_abs N.LIMIT) (vector_of state.now))
        orders.now) result (map N.fraction row.new.items) }
    ensures len { OnOk result (vec_len row.new ≡ vec_len row.old + length orders.now) }
    ensures capacity { vec_capacity row.old ≤ vec_capacity row.new }
{
    for order in orders {
        push_within(row, entry(order, state)?);
    }
    Ok(())
}

/// Writes the row of a state: the entries of the orders, and that of the slack.
pub(crate) fn write_state_row<N: Exact>(
    row: &mut Vec<N>,
    orders: &[Order],
    state: &State,
) -> Result<(), Wide>
    requires forms { All (λ o. IsOnCount state.now.count o.bundle) orders.now }
    requires room { length orders.now + 1 ≤ vec_capacity row.old }
    ensures written { HasMade (λ _. map N.fraction row.new.items) (row_steps limit
        (unsigned_abs N.LIMIT) orders.now (vector_of state.now)) result }
    ensures capacity { vec_capacity row.old ≤ vec_capacity row.new }
{
    row.clear();
    add_entries(row, orders, state)?;
    let t: N = scale(state)?;
    push_within(row, t.neg());
    Ok(())
}
