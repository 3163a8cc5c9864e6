//! What is kept for a market.

ghost use Rattle.std.specs.Prelude.{◌≡◌, None, Some};
ghost use Rattle.std.specs.Option.{option_copied};
ghost use Rattle.proposals.specs.Best.{after_offer, best_for};
ghost use Rattle.proposals.specs.Laws.{LosesNothing};

use crate::best::{Best, OrderNumbers};
use frac::Frac128;
use proposal_check::Proposal;
use std::marker::Model;

/// What is kept for a market: nothing, or the best for one list of orders.
#[derive(Debug, Drop)]
pub struct Kept {
    best: Option<Best>,
}

impl Model for Kept {
    ghost use Rattle.std.specs.Prelude as prelude;
    ghost use Rattle.proposals.specs.declared.best.Best.{Best};

    ghost Value = { prelude.Option Best };

    ghost view = { λ kept. kept.best };
}

impl Kept {
    /// Nothing is kept. Takes no memory.
    pub fn new() -> Self
        ensures { result ≡ None }
    {
        Kept { best: None }
    }

    /// Takes in a proposal that proves this bound for the batch of these orders: for the list that
    /// is kept its fills where their surplus is above that of those kept, and its measure where its
    /// bound is below; for another list both. Takes no memory.
    pub fn keep_better(&mut self, orders: OrderNumbers, proposal: Proposal, bound: Frac128)
        ensures kept { self.new ≡ Some (after_offer self.old orders proposal bound) }
        ensures better { LosesNothing self.old orders (after_offer self.old orders proposal bound) }
    {
        let new = Best::of(orders, proposal, bound);
        let best = match self.best.take() {
            Some(best) => best.after(new),
            None => new,
        };
        self.best = Some(best);
    }

    /// What is kept, where it is for these orders. Takes no memory.
    pub fn best_for(&self, orders: &[u64]) -> Option<&Best>
        ensures { option_copied result ≡ best_for self.now orders.now }
    {
        match &self.best {
            Some(best) => {
                if best.orders.as_slice() == orders {
                    Some(best)
                } else {
                    None
                }
            }
            None => None,
        }
    }

    /// What is kept, whatever the orders. Takes no memory.
    pub fn best(&self) -> Option<&Best>
        ensures { option_copied result ≡ self.now }
    {
        self.best.as_ref()
    }

    /// Takes out what is kept, whatever the orders. Takes no memory.
    pub fn into_best(self) -> Option<Best>
        ensures { result ≡ self }
    {
        self.best
    }
}
