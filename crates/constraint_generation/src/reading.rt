//! What is read off an optimum of the master program.
ghost use Rattle.std.specs.Prelude.{◌≡◌, ◌≤◌, ◌+◌, ◌++◌, ◌∷◌, ◌<◌, [], drop, length, map, unsigned_abs, vec_capacity, vec_len};
ghost use Rattle.std.specs.List.{zip};
ghost use Rattle.exact_num.specs.Fits.{meaning};
ghost use Rattle.form.specs.States.{vector_of};
ghost use Rattle.form.specs.declared.limits.TheConstants.{MAX_ORDERS};
ghost use Rattle.simplex.specs.Spaces.{IsFound, x_of, y_of, reduced_of};
ghost use Rattle.cert_check.specs.Points.{point_of};
ghost use Rattle.master_program.specs.Reading.{add_owed, liability_of, owed_of, points_with_weight};
ghost use Rattle.master_program.specs.Solve.{reading_at};
ghost use Rattle.pricing_oracle.specs.Filled.{HasMade};
ghost use Rattle.constraint_generation.specs.declared.master.TheConstants.{MAX_STATES};
ghost use Rattle.constraint_generation.specs.Optima.{optimum_of};
ghost use Rattle.constraint_generation.specs.Readings.{reading_in_lists};

use crate::master::{exact_at_zero, for_side};
use cert_check::Weighted;
use exact_num::sums::plus_product;
use exact_num::{Exact, Wide};
use form::{Order, State};
use frac::Frac128;
use lists::push_within;
use pricing_oracle::filling::write_values;
use simplex::Space;

/// The total and what the fill of an order owes where all prices are 0.
#[tactic(auto, unfolding(master_program::specs::Reading::add_owed))]
fn add_owed<N: Exact>(total: N, order: &Order, fill: N) -> Result<N, Wide>
    ensures { meaning N.fraction result ≡ add_owed (unsigned_abs N.LIMIT) (N.fraction total)
        (order.now, N.fraction fill) }
{
    let first = exact_at_zero(order)?;
    plus_product(total, fill, for_side(order.side, first))
}

/// What the fills owe where all prices are 0.
fn amount_owed<N: Exact>(orders: &[Order], fills: &[N]) -> Result<N, Wide>
    requires { length fills.now ≡ length orders.now }
    ensures { meaning N.fraction result ≡ owed_of (unsigned_abs N.LIMIT)
        (zip orders.now (map N.fraction fills.now)) }
{
    let mut total = N::zero();
    for i in 0..orders.len() {
        let order = &orders[i];
        total = add_owed(total, order, fills[i])?;
    }
    Ok(total)
}

/// What the fills owe where all prices are 0, and the slack.
#[tactic(auto, unfolding(master_program::specs::Reading::liability_of))]
fn liability<N: Exact>(orders: &[Order], fills: &[N], slack: N) -> Result<N, Wide>
    requires { length fills.now ≡ length orders.now }
    ensures { meaning N.fraction result ≡ liability_of (unsigned_abs N.LIMIT) orders.now
        (map N.fraction fills.now) (N.fraction slack) }
{
    let owed = amount_owed(orders, fills)?;
    owed.add(slack)
}

/// Adds a state with its weight, where that is above 0.
fn add_point<N: Exact>(points: &mut Vec<Weighted>, state: &State, weight: N)
    requires { vec_len points.old < vec_capacity points.old }
    ensures points { map point_of points.new.items
        ≡ map point_of points.old.items
        ++ points_with_weight ((vector_of state.now, N.fraction weight) ∷ []) }
    ensures len { vec_len points.new ≤ vec_len points.old + 1 }
    ensures capacity { vec_capacity points.old ≤ vec_capacity points.new }
{
    if weight.sign() > 0 {
        let point = Weighted {
            state: *state,
            weight: Frac128::of(weight),
        };
        push_within(points, point);
    }
}

/// Adds the states with their weights, where these are above 0: the dual values behind those of the
/// orders.
fn add_points<N: Exact>(
    points: &mut Vec<Weighted>,
    states: &[State],
    space: &Space<N>,
    orders: usize,
)
    requires found { IsFound space.now.contents }
    requires few { (orders ≤ MAX_ORDERS) × (length states.now ≤ MAX_STATES) }
    requires count { length (y_of space.now.contents) ≡ orders + length states.now }
    requires room { vec_len points.old + length states.now ≤ vec_capacity points.old }
    ensures points { map point_of points.new.items
        ≡ map point_of points.old.items ++ points_with_weight
        (zip (map vector_of states.now) (drop orders (y_of space.now.contents))) }
    ensures capacity { vec_capacity points.old ≤ vec_capacity points.new }
{
    for i in 0..states.len() {
        let state = &states[i];
        add_point(points, state, space.y(orders + i));
    }
}

/// What is read off but for its lists: the most that the house owes on the fills, and what is left
/// to it.
#[derive(Clone, Copy)]
pub(crate) struct Claim<N> {
    pub(crate) liability: N,
    pub(crate) surplus: N,
}

/// Reads off what the optimum in the space, over a first state and later ones, earns and what shows
/// it: the fills and the states with their weights into these lists.
pub(crate) fn read_off<N: Exact>(
    space: &Space<N>,
    orders: &[Order],
    first: &State,
    later: &[State],
    fills: &mut Vec<N>,
    points: &mut Vec<Weighted>,
) -> Result<Claim<N>, Wide>
    requires found { IsFound space.now.contents }
    requires few { (length orders.now ≤ MAX_ORDERS) × (length later.now ≤ MAX_STATES) }
    requires x { length (x_of space.now.contents) ≡ length orders.now + 1 }
    requires y { length (y_of space.now.contents) ≡ length orders.now + length later.now }
    requires reduced { length (reduced_of space.now.contents) ≡ length orders.now + 1 }
    requires fills { length orders.now ≤ vec_capacity fills.old }
    requires points { length later.now + 1 ≤ vec_capacity points.old }
    ensures read { HasMade (reading_in_lists N.fraction fills.new.items points.new.items)
        (reading_at (unsigned_abs N.LIMIT) (vector_of first.now) orders.now
        (map vector_of later.now) (optimum_of space.now.contents)) result }
    ensures fills { vec_capacity fills.old ≤ vec_capacity fills.new }
    ensures points { vec_capacity points.old ≤ vec_capacity points.new }
{
    let k = orders.len();
    write_values(fills, space, k);
    let liability = liability(orders, fills.as_slice(), space.x(k))?;
    points.clear();
    add_point(points, first, space.reduced(k));
    add_points(points, later, space, k);
    Ok(Claim {
        liability,
        surplus: space.value(),
    })
}
