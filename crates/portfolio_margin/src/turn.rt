//! One search of a margin's run, and what it leads to.
ghost use Rattle.std.specs.Prelude.{◌≡◌, ◌≢◌, ◌+◌, ℕ, IfOk, length};
ghost use Rattle.exact_num.specs.Fits.{meaning};
ghost use Rattle.frac.specs.Value.{fraction_of};
ghost use Rattle.form.specs.Limits.{HasItsForms};
ghost use Rattle.form.specs.States.{vector_of};
ghost use Rattle.form.specs.Vector.{scale_of};
ghost use Rattle.pricing_oracle.specs.Answers.{MayBeSearched};
ghost use Rattle.portfolio_margin.specs.Answers.{IsOnForms, IsTurnOf, asked_in};
ghost use Rattle.portfolio_margin.specs.Run.{at_state, turn_at, wanted_at};

use crate::least_margin::LeastMargin;
use exact_num::{Exact, Wide};
use form::{Batch, State};
use frac::{Frac128, whole};
use line_cover::net::net;
use pricing_oracle::{Found, search};
use simplex::{Budget, SolveStop};
use std::alloc::Global;

/// A liability, and the settlement that wants it.
#[derive(Clone, Copy)]
pub struct Wanted {
    pub liability: Frac128,
    pub at: State,
}

/// What a search leads to.
#[derive(Drop)]
pub enum Turn {
    /// The end of the run.
    Ends(LeastMargin),
    /// A search with the liability that the state found wants.
    Goes(Wanted),
}

// The liability that a settlement wants: what the fills owe there, by t.
fn wanted_at(batch: &Batch, fills: &[Frac128], at: &State) -> Result<Frac128, Wide>
    requires forms { HasItsForms batch.now }
    requires fills { length fills.now ≡ length batch.now.orders }
    requires count { at.now.count ≡ batch.now.underlyings + 1 }
    requires settlement { scale_of (vector_of at.now) ≢ 0 }
    ensures { (budget : ℕ) → meaning fraction_of result
        ≡ wanted_at (asked_in budget batch.now fills.now) (vector_of at.now) }
{
    let net = net(batch.orders.as_slice(), fills, at)?;
    net.div(whole(at.entries[0]))
}

// What follows a state at which the fills owe more than the liability.
fn at_state(
    batch: &Batch,
    fills: &[Frac128],
    state: State,
    budget: &Budget,
) -> Result<Turn, SolveStop>
    requires forms { HasItsForms batch.now }
    requires fills { length fills.now ≡ length batch.now.orders }
    requires count { state.count ≡ batch.now.underlyings + 1 }
    ensures turn { IsTurnOf (at_state (asked_in budget.now.limit batch.now fills.now)
        (vector_of state) budget.now.spent) result budget.now.spent }
    ensures state { IfOk result (IsOnForms batch.now.underlyings) }
{
    if state.entries[0] == 0 {
        return Ok(Turn::Ends(LeastMargin::Unbounded { ray: state }));
    }
    match wanted_at(batch, fills, &state) {
        Ok(liability) => Ok(Turn::Goes(Wanted {
            liability,
            at: state,
        })),
        Err(wide) => Err(SolveStop::Wide {
            unit: budget.spent,
            wide,
        }),
    }
}

/// Searches for a state at which the fills owe more than the liability.
pub(crate) fn take_turn(
    alloc: Global,
    batch: &Batch,
    fills: &[Frac128],
    wanted: Wanted,
    budget: &mut Budget,
) -> Result<Turn, SolveStop>
    requires { MayBeSearched fraction_of batch.now fills.now }
    ensures turn { IsTurnOf (turn_at (asked_in budget.old.limit batch.now fills.now)
        (fraction_of wanted.liability) (vector_of wanted.at) budget.old.spent)
        result budget.new.spent }
    ensures state { IfOk result (IsOnForms batch.now.underlyings) }
    ensures limit { budget.new.limit ≡ budget.old.limit }
{
    match search(alloc, batch, fills, &wanted.liability, budget)? {
        Found::Closed(tree) => Ok(Turn::Ends(LeastMargin::Least {
            liability: wanted.liability,
            at: wanted.at,
            tree,
        })),
        Found::Violated(state) => at_state(batch, fills, state, budget),
    }
}
