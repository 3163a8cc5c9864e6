//! The net payoff of fills at a state, step by step.

ghost use Rattle.std.specs.Prelude.{◌≡◌, All, length, map, zip};
ghost use Rattle.exact_num.specs.Fits.{meaning};
ghost use Rattle.frac.specs.Range.{limit};
ghost use Rattle.frac.specs.Value.{fraction_of};
ghost use Rattle.form.specs.Payoff.{IsOnCount};
ghost use Rattle.form.specs.States.{vector_of};
ghost use Rattle.line_cover.specs.Net.{add_payoff, excess, net_of};

use exact_num::{Exact, Wide};
use form::{Order, State, add_for_side, bundle_payoff};
use frac::{Frac128, whole};

// The total and what a fill of the order adds to the net at the state.
#[tactic(auto, unfolding(form::specs::Payoff::bundle_of))]
fn add_payoff(total: Frac128, order: &Order, fill: Frac128, state: &State) -> Result<Frac128, Wide>
    requires { IsOnCount state.now.count order.now.bundle }
    ensures { meaning fraction_of result
        ≡ add_payoff limit (vector_of state.now) (fraction_of total) (order.now, fraction_of fill) }
{
    let pays = bundle_payoff(&order.bundle, state)?;
    add_for_side(total, order.side, fill, whole(pays))
}

/// The net of the fills at the state, added up order by order. Takes no memory.
pub fn net(orders: &[Order], fills: &[Frac128], state: &State) -> Result<Frac128, Wide>
    requires fills { length fills.now ≡ length orders.now }
    requires forms { All (λ o. IsOnCount state.now.count o.bundle) orders.now }
    ensures { meaning fraction_of result
        ≡ net_of limit (zip orders.now (map fraction_of fills.now)) (vector_of state.now) }
{
    let mut total = Frac128::zero();
    for i in 0..orders.len() {
        let order = &orders[i];
        total = add_payoff(total, order, fills[i], state)?;
    }
    Ok(total)
}

/// The net less the liability times t. Takes no memory.
pub fn excess(
    orders: &[Order],
    fills: &[Frac128],
    liability: &Frac128,
    state: &State,
) -> Result<Frac128, Wide>
    requires fills { length fills.now ≡ length orders.now }
    requires forms { All (λ o. IsOnCount state.now.count o.bundle) orders.now }
    ensures { let filled = zip orders.now (map fraction_of fills.now) in
        meaning fraction_of result
        ≡ excess limit filled (fraction_of liability.now) (vector_of state.now) }
{
    let net = net(orders, fills, state)?;
    net.less_product(*liability, whole(state.entries[0]))
}
