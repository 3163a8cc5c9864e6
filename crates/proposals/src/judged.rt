//! What is handed out for what a solver found.

ghost use Rattle.std.specs.Prelude.{◌↔◌, IfOk, IsTrue};
ghost use Rattle.form.specs.Limits.{IsWithinLimits};
ghost use Rattle.proposals.specs.Judged.{IsHandedOut, IsJudgedBound};

use crate::unfilled::nothing;
use form::Batch;
use proposal_check::{Proposal, judge_proposal};
use sign_tree::leg_count;
use std::alloc::{AllocError, Global};

/// The proposal that was found, where it is judged a bound for the batch, and else that of nothing:
/// so what is handed out is judged a bound, whatever was found. The batch is within the limits of
/// the exchange. The error is want of memory.
pub fn judged_or_nothing(
    alloc: Global,
    batch: &Batch,
    found: Option<Proposal>,
) -> Result<Proposal, AllocError>
    requires within { IsWithinLimits batch.now }
    ensures handed { IfOk result (IsHandedOut batch.now found) }
    ensures judged { IfOk result (IsJudgedBound batch.now) }
{
    match found {
        None => nothing(alloc, batch),
        Some(proposal) => {
            if is_judged_bound(alloc, batch, &proposal)? {
                Ok(proposal)
            } else {
                nothing(alloc, batch)
            }
        }
    }
}

// Whether the proposal is judged a bound.
fn is_judged_bound(alloc: Global, batch: &Batch, proposal: &Proposal) -> Result<bool, AllocError>
    requires within { IsWithinLimits batch.now }
    ensures { IfOk result (λ is. IsTrue is ↔ IsJudgedBound batch.now proposal.now) }
{
    let mut signs = vec![in alloc; 0_i8; leg_count(batch.orders.as_slice())]?;
    Ok(judge_proposal(alloc, batch, proposal, &mut signs)?.is_ok())
}
