//! What the fills owe at a state above the liability.
ghost use Rattle.std.specs.Prelude.{◌≡◌, ◌+◌, length, map, pos, unsigned_abs};
ghost use Rattle.std.specs.List.{All, zip};
ghost use Rattle.exact_num.specs.Fits.{meaning, whole_of};
ghost use Rattle.exact_num.specs.Steps.{fold_steps};
ghost use Rattle.frac.specs.Range.{limit};
ghost use Rattle.form.specs.Payoff.{IsOnCount};
ghost use Rattle.form.specs.States.{vector_of};
ghost use Rattle.form.specs.Vector.{scale_of};
ghost use Rattle.master_program.specs.Search.{add_filled, add_owed, excess_of};
ghost use Rattle.simplex_run.specs.Places.{fraction_zero};
ghost use Rattle.pricing_oracle.specs.Nodes.{MayBeAsked};

use crate::legs::SearchQuestion;
use exact_num::{Exact, Wide};
use form::{Order, State, add_for_side, bundle_payoff};

// The total and what a filled order owes.
#[tactic(auto, unfolding(master_program::specs::Search::add_owed, master_program::specs::Master::order_payoff, form::specs::Payoff::bundle_of))]
fn add_owed<N: Exact>(total: N, order: &Order, fill: N, state: &State) -> Result<N, Wide>
    requires { IsOnCount state.now.count order.now.bundle }
    ensures { meaning N.fraction result
        ≡ add_owed limit (unsigned_abs N.LIMIT) (vector_of state.now) (N.fraction total)
        (order.now, N.fraction fill) }
{
    let payoff = bundle_payoff(&order.bundle, state)?;
    let owed = N::from_whole(payoff)?;
    add_for_side(total, order.side, fill, owed)
}

// The same of any order: one that is not filled owes nothing.
fn add_filled<N: Exact>(total: N, order: &Order, fill: N, state: &State) -> Result<N, Wide>
    requires { IsOnCount state.now.count order.now.bundle }
    ensures { meaning N.fraction result
        ≡ add_filled limit (unsigned_abs N.LIMIT) (vector_of state.now) (N.fraction total)
        (order.now, N.fraction fill) }
{
    if fill.sign() > 0 {
        add_owed(total, order, fill, state)
    } else {
        Ok(total)
    }
}

// What all orders owe.
fn net<N: Exact>(orders: &[Order], fills: &[N], state: &State) -> Result<N, Wide>
    requires forms { All (λ order. IsOnCount state.now.count order.bundle) orders.now }
    requires fills { length fills.now ≡ length orders.now }
    ensures { meaning N.fraction result
        ≡ fold_steps (add_filled limit (unsigned_abs N.LIMIT) (vector_of state.now)) fraction_zero
        (zip orders.now (map N.fraction fills.now)) }
{
    let mut total = N::zero();
    for i in 0..orders.len() {
        let order = &orders[i];
        total = add_filled(total, order, fills[i], state)?;
    }
    Ok(total)
}

// The t of a state.
fn scale<N: Exact>(state: &State) -> Result<N, Wide>
    ensures { meaning N.fraction result
        ≡ whole_of (unsigned_abs N.LIMIT) (pos (scale_of (vector_of state.now))) }
{
    N::from_whole(state.entries[0])
}

/// What the fills owe at a state above the liability times t: the orders in turn, and then the
/// liability.
#[tactic(auto, unfolding(master_program::specs::Search::excess_of))]
pub fn excess<N: Exact>(asked: SearchQuestion<N>, state: &State) -> Result<N, Wide>
    requires asked { MayBeAsked asked }
    requires count { state.now.count ≡ asked.underlyings + 1 }
    ensures { meaning N.fraction result ≡ excess_of limit (unsigned_abs N.LIMIT)
        (zip asked.entry.orders.now (map N.fraction asked.entry.fills.now))
        (N.fraction asked.entry.liability.now) (vector_of state.now) }
{
    let net: N = net(asked.orders, asked.fills, state)?;
    let t: N = scale(state)?;
    net.less_product(*asked.liability, t)
}
