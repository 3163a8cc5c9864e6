//! Positions as a batch whose net is what they owe.
ghost use Rattle.std.specs.Prelude.{◌≡◌, IfOk, map};
ghost use Rattle.std.specs.List.{All};
ghost use Rattle.settlement.specs.Positions.{IsHeldPosition};
ghost use Rattle.portfolio_margin.specs.Run.{order_of, orders_of, opposite};

use form::{Order, Side};
use frac::Frac128;
use settlement::{Position, premium};
use std::alloc::{AllocError, Global};

// The side of the order: the market owes a buyer what an account owes for a sell.
fn opposite(side: Side) -> Side
    ensures { result ≡ opposite side }
{
    match side {
        Side::Buy => Side::Sell,
        Side::Sell => Side::Buy,
    }
}

// The order that is filled as the position is: at price 0, with the fill rounded up as its
// quantity.
fn order_of(position: &Position) -> Order
    requires { IsHeldPosition position.now }
    ensures { result ≡ order_of position.now }
{
    let rounded = premium(&Side::Buy, &position.fill, 1);
    Order {
        id: position.order,
        account: position.account,
        side: opposite(position.side),
        bundle: position.bundle,
        price: 0,
        quantity: rounded as u32,
    }
}

/// The orders of the positions, one for each in their order.
pub(crate) fn orders_of(alloc: Global, positions: &[Position]) -> Result<Vec<Order>, AllocError>
    requires { All IsHeldPosition positions.now }
    ensures { IfOk result (λ orders. orders.items ≡ orders_of positions.now) }
{
    let mut orders = Vec::with_capacity(alloc, positions.len())?;
    for position in positions.iter() {
        orders.push(order_of(position))?;
    }
    Ok(orders)
}

/// Their fills.
pub(crate) fn fills_of(alloc: Global, positions: &[Position]) -> Result<Vec<Frac128>, AllocError>
    ensures { IfOk result (λ fills. fills.items ≡ map (λ p. p.fill) positions.now) }
{
    positions
        .iter()
        .map(|position| position.fill)
        .collect(alloc)
}
