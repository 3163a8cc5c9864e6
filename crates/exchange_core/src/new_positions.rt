// What the orders of a cleared batch hold until their market is settled.
ghost use Rattle.std.specs.Prelude.{◌≡◌, ◌+◌, ◌≤◌, ◌++◌, length};
ghost use Rattle.frac.specs.Value.{fraction_of};
ghost use Rattle.settlement.specs.Payout.{IsHolding};
ghost use Rattle.exchange_core.specs.Kept.{AreHeld};
ghost use Rattle.exchange_core.specs.Positions.{positions_of, positions_in};

use exact_num::Exact;
use form::Order;
use frac::Frac128;
use settlement::{Position, Positions};

// Adds the position of a fill, for which there is room. A fill of 0 gives none.
fn add_position(positions: &mut Positions, market: u32, batch: u32, order: &Order, fill: &Frac128)
    requires held { IsHolding order.now.bundle (fraction_of fill.now) }
    requires room { 1 ≤ positions.old.spare }
    ensures list { positions.new.list
        ≡ positions.old.list ++ positions_of market batch order.now fill.now }
    ensures spare { positions.old.spare ≤ positions.new.spare + 1 }
{
    if fill.sign() <= 0 {
        return;
    }
    positions.add(Position {
        market,
        batch,
        order: order.id,
        account: order.account,
        side: order.side,
        bundle: order.bundle,
        fill: *fill,
    });
}

// Adds the positions of a batch, in order of number.
pub(crate) fn add_positions(
    positions: &mut Positions,
    market: u32,
    batch: u32,
    orders: &[Order],
    fills: &[Frac128],
)
    requires size { length fills.now ≡ length orders.now }
    requires held { AreHeld orders.now fills.now }
    requires room { length orders.now ≤ positions.old.spare }
    ensures list { positions.new.list
        ≡ positions.old.list ++ positions_in market batch orders.now fills.now }
{
    for (place, order) in orders.iter().enumerate() {
        add_position(positions, market, batch, order, &fills[place]);
    }
}
