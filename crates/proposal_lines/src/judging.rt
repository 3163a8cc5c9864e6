// What becomes of a proposal.
ghost use Rattle.std.specs.Prelude.{◌≡◌, IfOk};
ghost use Rattle.proposal_check.specs.Proposals.{proposal_bound};
ghost use Rattle.form.specs.Limits.{IsWithinLimits};
ghost use Rattle.frac.specs.Range.{limit};
ghost use Rattle.order_book.specs.Numbers.{numbers_of};
ghost use Rattle.proposals.specs.Best.{are_same_orders};
ghost use Rattle.proposal_lines.specs.Proposed.{IsJudged, kept_by, offered};

use crate::kept_by_market::KeptByMarket;
use crate::proposed::Proposed;
use form::{Batch, Order};
use frac::Frac128;
use proposal_check::{Proposal, judge_proposal};
use proposal_text::{FailureKind, ProposalReply, failed_as};
use sign_tree::leg_count;
use std::alloc::{AllocError, Global};

// The numbers of orders.
pub(crate) fn numbers_of(alloc: Global, orders: &[Order]) -> Result<Vec<u64>, AllocError>
    ensures { IfOk result (λ numbers. numbers.items ≡ numbers_of orders.now) }
{
    orders.iter().map(|order| order.id).collect(alloc)
}

// Whether these are the numbers of just the orders of a batch.
fn is_for(alloc: Global, orders: &[u64], batch: &Batch) -> Result<bool, AllocError>
    ensures { IfOk result (λ is.
        is ≡ are_same_orders orders.now (numbers_of batch.now.orders)) }
{
    let numbers = numbers_of(alloc, batch.orders.as_slice())?;
    Ok(orders == numbers.as_slice())
}

// The bound that a proposal proves for a batch, or what it fails.
fn judged(
    alloc: Global,
    batch: &Batch,
    proposal: &Proposal,
) -> Result<Result<Frac128, FailureKind>, AllocError>
    requires { IsWithinLimits batch.now }
    ensures { IfOk result (IsJudged (proposal_bound limit batch.now proposal.now)) }
{
    let mut signs = vec![in alloc; 0_i8; leg_count(batch.orders.as_slice())]?;
    match judge_proposal(alloc, batch, proposal, &mut signs)? {
        Ok(bound) => Ok(Ok(bound)),
        Err(unproved) => Ok(Err(failed_as(unproved))),
    }
}

// Keeps a proposal that proves this bound.
fn keep(
    kept: &mut KeptByMarket,
    proposed: Proposed,
    bound: Frac128,
) -> Result<ProposalReply, AllocError>
    ensures { IfOk result (λ reply. (reply, kept.new) ≡ kept_by kept.old proposed bound) }
{
    let surplus = proposed.submission.proposal.claim.surplus;
    let market = proposed.market;
    let (best_surplus, least_bound) = kept.take_in(market, proposed.submission, bound)?;
    Ok(ProposalReply::Proposed {
        market,
        surplus,
        bound,
        best_surplus,
        least_bound,
    })
}

// Keeps a proposal for the batch of its market where it is for just its orders and proves a bound.
// The only error is want of memory.
pub(crate) fn judge(
    alloc: Global,
    kept: &mut KeptByMarket,
    proposed: Proposed,
    batch: &Batch,
) -> Result<ProposalReply, AllocError>
    requires { IsWithinLimits batch.now }
    ensures { IfOk result (λ reply. (reply, kept.new) ≡ offered kept.old proposed batch.now) }
{
    if !is_for(alloc, proposed.submission.orders.as_slice(), batch)? {
        return Ok(ProposalReply::Stale);
    }
    match judged(alloc, batch, &proposed.submission.proposal)? {
        Ok(bound) => keep(kept, proposed, bound),
        Err(failed) => Ok(ProposalReply::Unproved { failed }),
    }
}
