ghost use Rattle.std.specs.Prelude.{◌≡◌, ◌++◌, ◌-◌, ◌≤◌, [], ◌∷◌, OnOk, OnErr, IfOk};
ghost use Rattle.settlement.specs.Positions.{AreSettledAt, IsHeldPosition, outside, paid_out, payouts_of};
ghost use Rattle.settlement.specs.Payout.{IsSettledAt};

use crate::payouts::payout;
use crate::position::{PaidOut, Position};
use form::Side;
use std::alloc::{AllocError, Global};
use std::marker::Model;

/// The positions of all markets that are not settled, in the order in which they were added.
#[derive(Drop)]
pub struct Positions {
    alloc: Global,
    items: Vec<Position>,
}

impl Model for Positions {
    ghost use Rattle.std.specs.Prelude.{◌-◌, vec_capacity, vec_len};
    ghost use Rattle.std.specs.List.{All};
    ghost use Rattle.settlement.specs.Positions.{IsHeldPosition, PositionsState};

    ghost Value = { PositionsState };

    ghost view = { λ s. record {
      list = s.items.items;
      spare = vec_capacity s.items - vec_len s.items;
    } };

    ghost invariant = { λ s. All IsHeldPosition s.items.items };
}

impl Positions {
    /// No position. Takes no memory.
    pub fn new(alloc: Global) -> Self
        ensures { result.list ≡ [] }
    {
        Positions {
            alloc,
            items: Vec::new(alloc),
        }
    }

    /// The positions. Takes no memory.
    pub fn as_slice(&self) -> &[Position]
        ensures { result.now ≡ self.now.list }
    {
        &self.items
    }

    /// Makes room for this many positions, so that they need no memory.
    pub fn room(&mut self, positions: usize) -> Result<(), AllocError>
        ensures ok { OnOk result (positions ≤ self.new.spare) }
        ensures list { self.new.list ≡ self.old.list }
        ensures err { OnErr result (self.new ≡ self.old) }
    {
        self.items.reserve(positions)
    }

    /// Adds a position, for which there is room; its fill counts at most 1,000,000 options. It goes
    /// last. Takes no memory.
    pub fn add(&mut self, position: Position)
        requires room { 1 ≤ self.old.spare }
        requires held { IsHeldPosition position }
        ensures list { self.new.list ≡ self.old.list ++ position ∷ [] }
        ensures spare { self.new.spare ≡ self.old.spare - 1 }
    {
        self.items.push_reserved(position);
    }

    /// What is paid for the positions of a market at these prices, one payout for each in their
    /// order.
    pub fn payouts(&self, market: u32, prices: &[u32]) -> Result<Vec<PaidOut>, AllocError>
        requires { AreSettledAt market prices.now self.now.list }
        ensures { IfOk result (λ paid. paid.items ≡ payouts_of market prices.now self.now.list) }
    {
        let mut paid = Vec::new(self.alloc);
        for position in self.items.iter() {
            if position.market == market {
                paid.push(paid_out(position, prices))?;
            }
        }
        Ok(paid)
    }

    /// Takes the positions of a market out. The others keep their order. Takes no memory.
    pub fn drop_market(&mut self, market: u32)
        ensures list { self.new.list ≡ outside market self.old.list }
        ensures spare { self.old.spare ≤ self.new.spare }
    {
        self.items.retain(|position| position.market != market);
    }
}

// What is paid for a position at the prices.
fn paid_out(position: &Position, prices: &[u32]) -> PaidOut
    requires held { IsHeldPosition position.now }
    requires settled { IsSettledAt prices.now position.now.bundle }
    ensures { result ≡ paid_out prices.now position.now }
{
    let gain = payout(&position.side, &position.fill, &position.bundle, prices);
    PaidOut {
        batch: position.batch,
        order: position.order,
        account: position.account,
        side: if gain < 0 { Side::Sell } else { Side::Buy },
        amount: gain.unsigned_abs(),
    }
}
