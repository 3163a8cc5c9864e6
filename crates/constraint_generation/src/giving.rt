//! The master program of a batch, given to a space row by row.
ghost use Rattle.std.specs.Prelude.{◌≤◌, ◌+◌, Ok, length, map, unsigned_abs, vec_capacity};
ghost use Rattle.std.specs.List.{All};
ghost use Rattle.exact_num.specs.Fits.{after};
ghost use Rattle.frac.specs.Range.{limit};
ghost use Rattle.form.specs.Payoff.{IsOnCount};
ghost use Rattle.form.specs.States.{vector_of};
ghost use Rattle.form.specs.declared.limits.TheConstants.{MAX_ORDERS};
ghost use Rattle.simplex.specs.Spaces.{given, program_given};
ghost use Rattle.master_program.specs.Master.{map_steps, master, quantity_steps, rows_steps};
ghost use Rattle.pricing_oracle.specs.Filled.{HasMade};
ghost use Rattle.pricing_oracle.specs.Programs.{HasGiven, HasSameSize, IsOpen};
ghost use Rattle.constraint_generation.specs.Parts.{units_given};

use crate::master::{move_one, quantity, write_costs, write_state_row, write_unit_row};
use exact_num::{Exact, Wide};
use form::{Order, State};
use simplex::Space;

/// Gives the rows of the quantities of the orders: each is the one before it with its 1 a place on.
fn give_quantities<N: Exact>(
    space: &mut Space<N>,
    row: &mut Vec<N>,
    orders: &[Order],
) -> Result<(), Wide>
    requires few { length orders.now ≤ MAX_ORDERS }
    requires program { IsOpen space.old (length orders.now + 1) (length orders.now) }
    requires row { length orders.now + 1 ≤ vec_capacity row.old }
    ensures given { HasMade (λ _. space.new.contents) (units_given (length orders.now + 1) 0
        (program_given space.old.contents)
        (map_steps (quantity_steps (unsigned_abs N.LIMIT)) orders.now)) result }
    ensures size { HasSameSize space.old space.new }
    ensures capacity { vec_capacity row.old ≤ vec_capacity row.new }
{
    write_unit_row(row, orders.len() + 1, 0);
    for i in 0..orders.len() {
        let order = &orders[i];
        let quantity = quantity(order)?;
        space.row(row.as_slice(), quantity);
        move_one(row, i);
    }
    Ok(())
}

/// Gives the rows of the states.
fn give_states<N: Exact>(
    space: &mut Space<N>,
    row: &mut Vec<N>,
    orders: &[Order],
    states: &[State],
) -> Result<(), Wide>
    requires forms { All (λ state.
        All (λ o. IsOnCount state.count o.bundle) orders.now) states.now }
    requires program { IsOpen space.old (length orders.now + 1) (length states.now) }
    requires row { length orders.now + 1 ≤ vec_capacity row.old }
    ensures given { HasGiven space.old (length states.now) (rows_steps limit
        (unsigned_abs N.LIMIT) orders.now (map vector_of states.now)) result space.new }
    ensures size { HasSameSize space.old space.new }
    ensures capacity { vec_capacity row.old ≤ vec_capacity row.new }
{
    for state in states {
        write_state_row(row, orders, state)?;
        space.row(row.as_slice(), N::zero());
    }
    Ok(())
}

/// Gives the master program of the orders over the state where all prices are 0 and these states:
/// costs first, then row by row.
pub(crate) fn give_master<N: Exact>(
    space: &mut Space<N>,
    row: &mut Vec<N>,
    orders: &[Order],
    states: &[State],
) -> Result<(), Wide>
    requires few { length orders.now ≤ MAX_ORDERS }
    requires forms { All (λ state.
        All (λ o. IsOnCount state.count o.bundle) orders.now) states.now }
    requires rows { length orders.now + length states.now ≤ space.old.rows }
    requires columns { length orders.now + 1 ≤ space.old.columns }
    requires row { length orders.now + 1 ≤ vec_capacity row.old }
    ensures given { HasMade (λ _. space.new.contents) (after (master limit
        (unsigned_abs N.LIMIT) orders.now (map vector_of states.now)) (λ p. Ok (given p)))
        result }
    ensures size { HasSameSize space.old space.new }
    ensures capacity { vec_capacity row.old ≤ vec_capacity row.new }
{
    write_costs(row, orders)?;
    space.begin(row.as_slice());
    give_quantities(space, row, orders)?;
    give_states(space, row, orders, states)
}
