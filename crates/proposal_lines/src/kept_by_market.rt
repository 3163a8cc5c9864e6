// What is kept of proposals, market by market.
ghost use Rattle.std.specs.Prelude.{◌≡◌, [], IfOk, IfSome, IsSome, OnOk};
ghost use Rattle.std.specs.Option.{ok_or};
ghost use Rattle.proposals.specs.Best.{after_offer};
ghost use Rattle.proposal_lines.specs.KeptByMarket.{after_end, best_in, bounded_as, bounded_by, bounded_in, kept_in, matched_by, stop_of, with_kept, without_kept};

use cert_check::{Mark, Outcome};
use frac::Frac128;
use indexmap::IndexMap;
use lists::List;
use proposal_check::{Proposal, ProposalCover};
use proposal_text::{BoundedOutcome, StopReason, Submission};
use proposals::{Best, Kept};
use std::alloc::{AllocError, Global};
use std::marker::Model;
use std::mem::replace;

#[derive(Drop)]
pub(crate) struct KeptByMarket {
    by_market: IndexMap<u32, Kept>,
}

impl Model for KeptByMarket {
    ghost use Rattle.std.specs.Prelude.{nat_eq};
    ghost use Rattle.std.specs.List.{IsDistinct};
    ghost use Rattle.std.specs.Map.{keys_of};
    ghost use Rattle.proposal_lines.specs.KeptByMarket.{KeptProposals};

    ghost Value = { KeptProposals };

    ghost view = { λ s. s.by_market.entries };

    ghost invariant = { λ s. IsDistinct nat_eq (keys_of s.by_market.entries) };
}

// What is kept as the outcome of a batch whose reference run stopped.
fn bounded_by(best: Best, run: StopReason, units: u32) -> BoundedOutcome
    ensures { result ≡ bounded_by best run units }
{
    let Best {
        orders: _,
        covered,
        bounded,
    } = best;
    BoundedOutcome {
        proposal: Proposal {
            fills: covered.fills,
            claim: covered.claim,
            cover: covered.cover,
            measure: bounded.measure,
        },
        bound: bounded.bound,
        run,
        units,
    }
}

// The match that is this outcome, with the measure and the bound that are kept.
fn matched_by(alloc: Global, mut outcome: Outcome, run: StopReason, best: Best) -> BoundedOutcome
    ensures { result ≡ matched_by outcome run best }
{
    let Best {
        orders: _,
        covered: _,
        bounded,
    } = best;
    let fills = replace(&mut outcome.fills, List::from_vec(Vec::new(alloc)));
    BoundedOutcome {
        proposal: Proposal {
            fills,
            claim: outcome.claim,
            cover: ProposalCover::Match,
            measure: bounded.measure,
        },
        bound: bounded.bound,
        run,
        units: outcome.units,
    }
}

// What takes the place of an outcome whose run stopped, where this is kept: the match, where it is
// at least as good, or what is kept.
fn bounded_as(alloc: Global, outcome: Outcome, run: StopReason, best: Best) -> BoundedOutcome
    ensures { result ≡ bounded_as outcome run best }
{
    if best.covered.claim.surplus <= outcome.claim.surplus {
        matched_by(alloc, outcome, run, best)
    } else {
        bounded_by(best, run, outcome.units)
    }
}

// Why the run of an outcome stopped; `None` where it is the greatest.
pub(crate) fn stop_of(mark: &Mark) -> Option<StopReason>
    ensures { result ≡ stop_of mark.now }
{
    match mark {
        Mark::Optimal { .. } => None,
        Mark::Wide(_) => Some(StopReason::Wide),
        Mark::Budget => Some(StopReason::Budget),
    }
}

// The surplus and the bound that are kept.
fn numbers_of(kept: &Kept) -> (Frac128, Frac128)
    requires { IsSome kept.now }
    ensures { IfSome kept.now (λ best.
        result ≡ (best.covered.claim.surplus, best.bounded.bound)) }
{
    let best = kept.best().unwrap();
    (best.covered.claim.surplus, best.bounded.bound)
}

impl KeptByMarket {
    pub(crate) fn new(alloc: Global) -> Self
        ensures { result ≡ [] }
    {
        KeptByMarket {
            by_market: IndexMap::new(alloc),
        }
    }

    // Nothing is kept any more.
    pub(crate) fn clear(&mut self)
        ensures { self.new ≡ [] }
    {
        self.by_market.clear();
    }

    // Takes out what is kept for a market.
    fn take(&mut self, market: u32) -> Kept
        ensures taken { result ≡ kept_in market self.old }
        ensures left { self.new ≡ without_kept market self.old }
    {
        match self.by_market.shift_remove(&market) {
            Some(kept) => kept,
            None => Kept::new(),
        }
    }

    // The same, where it is for these orders.
    fn take_for(&mut self, market: u32, orders: &[u64]) -> Option<Best>
        ensures taken { result ≡ best_in market orders.now self.old }
        ensures left { self.new ≡ without_kept market self.old }
    {
        let best = self.take(market).into_best()?;
        if best.orders.as_slice() == orders {
            Some(best)
        } else {
            None
        }
    }

    // Lets go of what is kept for a market that is cleared or settled.
    pub(crate) fn after_end(&mut self, ended: Option<u32>)
        ensures { self.new ≡ after_end self.old ended }
    {
        if let Some(market) = ended {
            self.take(market);
        }
    }

    // Takes in a proposal that proves this bound, and answers the surplus and the bound that are
    // kept after it.
    pub(crate) fn take_in(
        &mut self,
        market: u32,
        submission: Submission,
        bound: Frac128,
    ) -> Result<(Frac128, Frac128), AllocError>
        ensures told { IfOk result (λ told. let best = after_offer (kept_in market self.old)
            submission.orders submission.proposal bound in
            told ≡ (best.covered.claim.surplus, best.bounded.bound)) }
        ensures kept { OnOk result (self.new ≡ with_kept market (after_offer
            (kept_in market self.old) submission.orders submission.proposal bound) self.old) }
    {
        let mut kept = self.take(market);
        kept.keep_better(submission.orders, submission.proposal, bound);
        let told = numbers_of(&kept);
        self.by_market.insert(market, kept)?;
        Ok(told)
    }

    // Takes out what is kept for a market, and answers what takes the place of an outcome of its
    // batch with these orders: where the run stopped and what is kept is for them. Else the outcome.
    pub(crate) fn take_bounded(
        &mut self,
        alloc: Global,
        market: u32,
        orders: &[u64],
        outcome: Outcome,
    ) -> Result<BoundedOutcome, Outcome>
        ensures bounded { result ≡ ok_or (bounded_in market orders.now outcome self.old) outcome }
        ensures left { self.new ≡ without_kept market self.old }
    {
        match self.take_for(market, orders) {
            Some(best) => match stop_of(&outcome.mark) {
                Some(run) => Ok(bounded_as(alloc, outcome, run, best)),
                None => Err(outcome),
            },
            None => Err(outcome),
        }
    }
}
