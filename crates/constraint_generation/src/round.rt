//! One round on several underlyings.
ghost use Rattle.std.specs.Prelude.{◌≡◌, ◌≤◌, ◌+◌, IfOk, length, map, unsigned_abs};
ghost use Rattle.std.specs.List.{All};
ghost use Rattle.form.specs.Limits.{IsWithinLimits};
ghost use Rattle.form.specs.States.{vector_of};
ghost use Rattle.search_laws.specs.Sizes.{one_round};
ghost use Rattle.pricing_oracle.specs.Sizes.{AreWithin, sizes_for};
ghost use Rattle.constraint_generation.specs.Answers.{limits_of};
ghost use Rattle.constraint_generation.specs.Rooms.{IsSolveRoom, KeepsSolveRoom};
ghost use Rattle.constraint_generation.specs.Round.{IsOnForms, IsRoundAnswer};
ghost use Rattle.constraint_generation.specs.declared.master.TheConstants.{MAX_STATES};

use crate::master_solve::solve_over;
use crate::reading::Claim;
use crate::solve_room::SolveRoom;
use exact_num::Exact;
use form::{Batch, State};
use pricing_oracle::{SearchRoom, search_in};
use simplex::{Budget, RunStop};

/// What a round ends with.
#[derive(Drop)]
pub(crate) enum RoundEnd<N> {
    /// The liability is enough at every state, and the search room has the tree that shows it.
    Closed(Claim<N>),
    /// It is not, at this state.
    Violated(State),
}

/// Solves the master program over the states, and searches for one at which its liability is not
/// enough.
pub(crate) fn round<N: Exact>(
    batch: &Batch,
    states: &[State],
    budget: &mut Budget,
    room: &mut SolveRoom<N>,
    search: &mut SearchRoom<N>,
) -> Result<RoundEnd<N>, RunStop>
    requires limits { IsWithinLimits batch.now }
    requires few_states { length states.now ≤ MAX_STATES }
    requires counts { All (λ state. state.count ≡ batch.now.underlyings + 1) states.now }
    requires room { IsSolveRoom (length batch.now.orders) (length states.now + 1) room.old }
    requires sizes { AreWithin (sizes_for batch.now budget.old.limit) search.old.sizes }
    ensures run { IsRoundAnswer N.fraction (one_round
        (limits_of (unsigned_abs N.LIMIT) budget.old.limit) batch.now.underlyings
        batch.now.orders (map vector_of states.now) budget.old.spent) room.new search.new.tree
        result budget.new.spent }
    ensures state { IfOk result (IsOnForms batch.now.underlyings) }
    ensures limit { budget.new.limit ≡ budget.old.limit }
    ensures room { KeepsSolveRoom room.old room.new }
    ensures sizes { search.new.sizes ≡ search.old.sizes }
{
    let read = solve_over(batch, states, budget, room)?;
    let fills = room.fills.as_slice();
    match search_in(batch, fills, &read.liability, budget, search)? {
        Some(state) => Ok(RoundEnd::Violated(state)),
        None => Ok(RoundEnd::Closed(read)),
    }
}
