//! Searches over two underlyings.
ghost use Rattle.std.specs.Prelude.{◌≡◌};
ghost use Rattle.form.specs.Payoff.{IsOnCount};

use exact_num::Exact;
use form::{Batch, Bundle, Form, Order, Orders, Side};
use frac::Frac128;
use pricing_oracle::{Found, search};
use simplex::{Budget, SolveStop};
use std::alloc::{AllocError, Global};
use std::test::Fail;

// The call with strike 10 on the sum of two underlyings.
fn option() -> Form
    ensures { result.count ≡ 3 }
{
    Form {
        count: 3,
        entries: [-10, 1, 1, 0, 0, 0, 0, 0, 0],
    }
}

// An order for it.
fn order(side: Side) -> Order
    ensures { IsOnCount 3 result.bundle }
{
    Order {
        id: 1,
        account: 1,
        side,
        bundle: Bundle::one(option()),
        price: 1,
        quantity: 1,
    }
}

// Whether three nodes close a search.
fn is_closed(found: &Result<Found, SolveStop>) -> bool {
    match found {
        Ok(Found::Closed(tree)) => tree.nodes.as_slice().len() == 3,
        _ => false,
    }
}

// Whether a search found a violated state whose first entry is 0.
fn is_violated_at_zero(found: &Result<Found, SolveStop>) -> bool {
    match found {
        Ok(Found::Violated(state)) => state.entries[0] == 0,
        _ => false,
    }
}

// Whether a call that is bought and sold is covered by both signs of it, and one that is only
// bought is not covered.
fn is_covered_where_sold(alloc: Global) -> Result<bool, AllocError> {
    let (zero, one) = (Frac128::zero(), Frac128::one());
    let orders = [order(Side::Buy), order(Side::Sell)];
    let batch = Batch {
        underlyings: 2,
        orders: Orders::from_vec(Vec::from_slice(alloc, &orders)?),
    };
    let both = search(alloc, &batch, &[one, one], &zero, &mut Budget::new(100));
    let first = search(alloc, &batch, &[one, zero], &one, &mut Budget::new(100));
    Ok(is_closed(&both) && is_violated_at_zero(&first))
}

#[test]
fn calls_are_covered_where_they_are_sold(rt: HostRuntime) -> Result<(), Fail> {
    assert!(rt; is_covered_where_sold(rt.alloc())?);
    Ok(())
}
