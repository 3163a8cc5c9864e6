//! Fills without a mark: each bundle is balanced by itself.

ghost use Rattle.std.specs.Prelude.{◌≡◌, length};
ghost use Rattle.exact_num.specs.Fits.{meaning};
ghost use Rattle.frac.specs.Range.{limit};
ghost use Rattle.frac.specs.Value.{fraction_of};
ghost use Rattle.form.specs.Payoff.{bundle_legs};
ghost use Rattle.cert_check.specs.Cover.{add_fill, add_same, balance_of, balances_all, balances_at, batch_balances};
ghost use Rattle.cert_check.specs.Tests.{order_fills};

use exact_num::{Exact, Wide};
use form::{Bundle, Order, Side, is_same_bundle};
use frac::Frac128;

/// Whether the liability is 0 and as much is bought as sold of each bundle. There are as many fills
/// as orders. `Wide` comes exactly where a step does not fit before it fails. Takes no memory.
pub fn fallback_holds(
    orders: &[Order],
    fills: &[Frac128],
    liability: &Frac128,
) -> Result<bool, Wide>
    requires { length fills.now ≡ length orders.now }
    ensures { result ≡ batch_balances limit orders.now fills.now liability.now }
{
    if *liability != Frac128::zero() {
        return Ok(false);
    }
    balances_all(orders, fills)
}

// Whether as much is bought as sold of the bundle of each order.
#[tactic(auto, unfolding(form::specs::Payoff::bundle_of))]
fn balances_all(orders: &[Order], fills: &[Frac128]) -> Result<bool, Wide>
    requires { length fills.now ≡ length orders.now }
    ensures { result ≡ balances_all limit (order_fills orders.now fills.now) orders.now }
{
    for order in orders {
        if !balances_at(orders, fills, &order.bundle)? {
            return Ok(false);
        }
    }
    Ok(true)
}

// Whether as much is bought as sold of the bundle.
fn balances_at(orders: &[Order], fills: &[Frac128], bundle: &Bundle) -> Result<bool, Wide>
    requires { length fills.now ≡ length orders.now }
    ensures { result ≡ balances_at limit (order_fills orders.now fills.now)
        (bundle_legs bundle.now) }
{
    let sum = balance(orders, fills, bundle)?;
    Ok(sum == Frac128::zero())
}

// What is bought of the bundle less what is sold of it.
fn balance(orders: &[Order], fills: &[Frac128], bundle: &Bundle) -> Result<Frac128, Wide>
    requires { length fills.now ≡ length orders.now }
    ensures { meaning fraction_of result
        ≡ balance_of limit (order_fills orders.now fills.now) (bundle_legs bundle.now) }
{
    let mut total = Frac128::zero();
    for i in 0..orders.len() {
        let order = &orders[i];
        total = add_same(total, bundle, order, fills[i])?;
    }
    Ok(total)
}

// The total and the fill, where it is of the bundle.
#[tactic(auto, unfolding(form::specs::Payoff::bundle_of))]
fn add_same(total: Frac128, bundle: &Bundle, order: &Order, fill: Frac128) -> Result<Frac128, Wide>
    ensures { meaning fraction_of result ≡ add_same limit (bundle_legs bundle.now)
        (fraction_of total) (order.now, fraction_of fill) }
{
    if is_same_bundle(&order.bundle, bundle) {
        add_fill(total, order.side, fill)
    } else {
        Ok(total)
    }
}

// The total and the fill, which a sell subtracts.
fn add_fill(total: Frac128, side: Side, fill: Frac128) -> Result<Frac128, Wide>
    ensures { meaning fraction_of result
        ≡ add_fill limit (fraction_of total) side (fraction_of fill) }
{
    match side {
        Side::Buy => total.add(fill),
        Side::Sell => total.sub(fill),
    }
}
