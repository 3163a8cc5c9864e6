//! The master program over some states: given, solved, and read off.
ghost use Rattle.std.specs.Prelude.{◌≡◌, ◌≤◌, ◌-◌, ◌+◌, ◌∷◌, IfOk, OnOk, length, map, unsigned_abs, vec_capacity};
ghost use Rattle.std.specs.List.{All};
ghost use Rattle.frac.specs.Range.{limit};
ghost use Rattle.form.specs.Limits.{HasItsForms};
ghost use Rattle.form.specs.Payoff.{IsOnCount};
ghost use Rattle.form.specs.States.{vector_of};
ghost use Rattle.form.specs.declared.limits.TheConstants.{MAX_ORDERS};
ghost use Rattle.master_program.specs.Certified.{IsCertifiedAt};
ghost use Rattle.master_program.specs.Master.{zero_prices};
ghost use Rattle.master_program.specs.Solve.{master_run, master_solve};
ghost use Rattle.pricing_oracle.specs.Programs.{HasSameSize};
ghost use Rattle.constraint_generation.specs.Optima.{HasLengths, IsRunAnswer};
ghost use Rattle.constraint_generation.specs.Readings.{reading_in_lists};
ghost use Rattle.constraint_generation.specs.Rooms.{IsReadAnswer, IsSolveRoom, KeepsSolveRoom};
ghost use Rattle.constraint_generation.specs.declared.master.TheConstants.{MAX_STATES};

use crate::first_states::zero_prices;
use crate::giving::give_master;
use crate::reading::{Claim, read_off};
use crate::solve_room::SolveRoom;
use exact_num::Exact;
use form::{Batch, Order, State};
use simplex::{Budget, RunStop, Space};

/// Runs the master program of the orders over the state where all prices are 0 and these: its
/// optimum then stands in the space. Its shape, and that it does not rise without an end, hang on
/// no number of underlyings.
fn run_master<N: Exact>(
    space: &mut Space<N>,
    row: &mut Vec<N>,
    orders: &[Order],
    later: &[State],
    budget: &mut Budget,
) -> Result<(), RunStop>
    requires few { length orders.now ≤ MAX_ORDERS }
    requires forms { All (λ state. All (λ o. IsOnCount state.count o.bundle) orders.now) later.now }
    requires rows { length orders.now + length later.now ≤ space.old.rows }
    requires columns { length orders.now + 1 ≤ space.old.columns }
    requires row { length orders.now + 1 ≤ vec_capacity row.old }
    ensures run { IsRunAnswer (master_run limit (unsigned_abs N.LIMIT)
        (budget.old.limit - budget.old.spent) budget.old.spent orders.now
        (map vector_of later.now)) space.new.contents result budget.new.spent }
    ensures lengths { OnOk result
        (HasLengths (length orders.now) (length later.now) space.new.contents) }
    ensures size { HasSameSize space.old space.new }
    ensures capacity { vec_capacity row.old ≤ vec_capacity row.new }
    ensures limit { budget.new.limit ≡ budget.old.limit }
{
    if let Err(wide) = give_master(space, row, orders, later) {
        return Err(RunStop::Wide {
            unit: budget.spent,
            wide,
        });
    }
    space.run(budget)?;
    Ok(())
}

/// Solves the master program of the batch over these states and the one where all prices are 0, and
/// reads off what its optimum earns and what shows it.
pub(crate) fn solve_over<N: Exact>(
    batch: &Batch,
    states: &[State],
    budget: &mut Budget,
    room: &mut SolveRoom<N>,
) -> Result<Claim<N>, RunStop>
    requires forms { HasItsForms batch.now }
    requires few { length batch.now.orders ≤ MAX_ORDERS }
    requires few_states { length states.now ≤ MAX_STATES }
    requires counts { All (λ state. state.count ≡ batch.now.underlyings + 1) states.now }
    requires room { IsSolveRoom (length batch.now.orders) (length states.now + 1) room.old }
    ensures run { IsReadAnswer N.fraction (master_solve limit
        (unsigned_abs N.LIMIT) (budget.old.limit - budget.old.spent) budget.old.spent
        batch.now.underlyings batch.now.orders (map vector_of states.now))
        room.new result budget.new.spent }
    ensures certified { IfOk result (λ read.
        IsCertifiedAt batch.now.underlyings batch.now.orders
        (zero_prices batch.now.underlyings ∷ map vector_of states.now)
        (reading_in_lists N.fraction room.new.fills.items room.new.points.items read)) }
    ensures room { KeepsSolveRoom room.old room.new }
    ensures limit { budget.new.limit ≡ budget.old.limit }
{
    let orders = batch.orders.as_slice();
    run_master(&mut room.space, &mut room.row, orders, states, budget)?;
    let first = zero_prices(batch.underlyings);
    match read_off(
        &room.space,
        orders,
        &first,
        states,
        &mut room.fills,
        &mut room.points,
    ) {
        Ok(read) => Ok(read),
        Err(wide) => Err(RunStop::Wide {
            unit: budget.spent,
            wide,
        }),
    }
}
