//! The match of each bundle by itself, as a proposal.

ghost use Rattle.std.specs.Prelude.{◌≡◌, IfOk};
ghost use Rattle.exact_num.specs.Tests.{is_at_most};
ghost use Rattle.frac.specs.Value.{fraction_of};
ghost use Rattle.form.specs.Limits.{IsWithinLimits};
ghost use Rattle.cert_check.specs.Conditions.{is_optimal_mark};
ghost use Rattle.proposal_check.specs.ProposalLaws.{as_match};
ghost use Rattle.proposals.specs.Judged.{IsJudgedBound};
ghost use Rattle.match_proposals.specs.Least.{EarnsTheMatch};

use cert_check::{Fills, Mark, Outcome};
use clearing::clear;
use form::Batch;
use frac::Frac128;
use proposal_check::{Proposal, ProposalCover};
use std::alloc::{AllocError, Global};
use std::mem::replace;

/// A proposal for the batch that is judged a bound, or where it earns less than the match of each
/// bundle by itself, that match with the proposal's measure, which is judged a bound then. Where a
/// reference run of one unit ends, a clear needs no proposal, and it stays as it is. The batch is
/// within the limits of the exchange. The error is want of memory.
pub fn at_least_match(
    alloc: Global,
    batch: &Batch,
    proposal: Proposal,
) -> Result<Proposal, AllocError>
    requires within { IsWithinLimits batch.now }
    requires judged { IsJudgedBound batch.now proposal }
    ensures judged { IfOk result (IsJudgedBound batch.now) }
    ensures earned { IfOk result (EarnsTheMatch batch.now) }
{
    let outcome = clear(alloc, batch, 1)?;
    if is_optimal(&outcome.mark) {
        return Ok(proposal);
    }
    if is_at_most(outcome.claim.surplus, proposal.claim.surplus) {
        return Ok(proposal);
    }
    Ok(match_of(alloc, outcome, proposal))
}

// Whether the run ended.
fn is_optimal(mark: &Mark) -> bool
    ensures { result ≡ is_optimal_mark mark.now }
{
    match mark {
        Mark::Optimal { .. } => true,
        Mark::Wide(_) => false,
        Mark::Budget => false,
    }
}

// Whether a surplus is at most the other.
fn is_at_most(one: Frac128, other: Frac128) -> bool
    ensures { result ≡ is_at_most (fraction_of one) (fraction_of other) }
{
    one <= other
}

// The match that is this outcome, with the measure of a proposal.
fn match_of(alloc: Global, mut outcome: Outcome, proposal: Proposal) -> Proposal
    ensures { result ≡ as_match outcome proposal.measure }
{
    let Proposal {
        fills: _,
        claim: _,
        cover: _,
        measure,
    } = proposal;
    let fills = replace(&mut outcome.fills, Fills::from_vec(Vec::new(alloc)));
    Proposal {
        fills,
        claim: outcome.claim,
        cover: ProposalCover::Match,
        measure,
    }
}
