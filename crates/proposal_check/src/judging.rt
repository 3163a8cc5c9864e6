//! The judgement of a proposal, and of the line of a batch that was cleared by one.

ghost use Rattle.std.specs.Prelude.{◌≡◌, ◌≤◌, IfErr, IfOk, OnOk, length};
ghost use Rattle.frac.specs.Range.{limit};
ghost use Rattle.frac.specs.Value.{fraction_of};
ghost use Rattle.form.specs.Limits.{HasItsForms};
ghost use Rattle.sign_tree.specs.Legs.{leg_count};
ghost use Rattle.sign_tree.specs.declared.closing.TheConstants.{MAX_SIGNS};
ghost use Rattle.cert_check.specs.Conditions.{IfNo, OnYes};
ghost use Rattle.cert_check.specs.Laws.{IsCovered};
ghost use Rattle.cert_check.specs.Points.{IsOnStates};
ghost use Rattle.cert_check.specs.Tests.{AreSigns};
ghost use Rattle.proposal_check.specs.Covers.{IsCoverOf};
ghost use Rattle.proposal_check.specs.Proposals.{as_fraction, as_outcome, bound_where, bounded_verdict_of, covered_bound, proposal_bound, proposal_covered};
ghost use Rattle.proposal_check.specs.ProposalLaws.{AreMet, BoundSurplus, HasBound, IsFirstUnmetBounded, IsUnproved};

use crate::bounded::{compared, measured_bound};
use crate::covering::cover_shows;
use crate::covers::{BoundFailure, Proposal};
use crate::shape::has_shape;
use cert_check::{FailedCondition, Measure, Verdict, are_fills, surplus_holds};
use exact_num::Wide;
use form::Batch;
use frac::Frac128;
use std::alloc::{AllocError, Global};

/// The bound that the proposal proves for the batch: that of its measure, where the conditions
/// before it hold (the shape of the batch, the fills from 0 to their quantities, the cover, and the
/// measure). It shows that the fills cover the claimed surplus at every settlement, that this is
/// not below 0, and that no fractional fills cover more than the bound. `No` has the first
/// condition that fails, which is never that of the bound, and `Wide` the first step that does not
/// fit where no condition failed before. The batch is on 1 to 8 underlyings, and there are as many
/// signs as the orders have legs, at most 1,024; what they held does not matter. A tree whose nodes
/// times these legs are above 2,000,000 is refused for the shape. Takes memory for cells alone, as
/// they are walked; the error is want of it.
pub fn judge_proposal(
    alloc: Global,
    batch: &Batch,
    proposal: &Proposal,
    signs: &mut [i8],
) -> Result<Result<Frac128, BoundFailure>, AllocError>
    requires underlyings { (1 ≤ batch.now.underlyings) × (batch.now.underlyings ≤ 8) }
    requires signs { length signs.old ≡ leg_count batch.now.orders }
    requires few { leg_count batch.now.orders ≤ MAX_SIGNS }

    // The first event in the order of the conditions, over sums of 127 bits.
    ensures steps { IfOk result (λ judged.
        as_fraction judged ≡ proposal_bound limit batch.now proposal.now) }

    ensures met { IfOk result (λ judged. OnOk judged (AreMet batch.now proposal.now)) }
    ensures unmet { IfOk result (λ judged. IfErr judged (IsUnproved batch.now proposal.now)) }

    ensures covers { IfOk result (λ judged.
        OnOk judged (IsCovered batch.now (as_outcome proposal.now))) }
    ensures measured { IfOk result (λ judged. IfOk judged (λ bound.
        HasBound batch.now proposal.now (fraction_of bound))) }
    ensures bounds { IfOk result (λ judged. IfOk judged (λ bound.
        BoundSurplus batch.now proposal.now (fraction_of bound))) }
{
    judged(alloc, batch, proposal, signs)
}

// The conditions in their order, and then the bound.
fn judged(
    alloc: Global,
    batch: &Batch,
    proposal: &Proposal,
    signs: &mut [i8],
) -> Result<Result<Frac128, BoundFailure>, AllocError>
    requires underlyings { (1 ≤ batch.now.underlyings) × (batch.now.underlyings ≤ 8) }
    requires signs { length signs.old ≡ leg_count batch.now.orders }
    requires few { leg_count batch.now.orders ≤ MAX_SIGNS }
    ensures { IfOk result (λ judged.
        as_fraction judged ≡ proposal_bound limit batch.now proposal.now) }
{
    if !has_shape(alloc, batch, proposal, signs.len())? {
        return Ok(Err(BoundFailure::No(FailedCondition::BatchShape)));
    }
    if !are_fills(batch.orders.as_slice(), proposal.fills.as_slice()) {
        return Ok(Err(BoundFailure::No(FailedCondition::Fill)));
    }
    covered_bound(alloc, batch, proposal, signs)
}

// The bound of the measure, where the cover holds and the measure is one.
fn covered_bound(
    alloc: Global,
    batch: &Batch,
    proposal: &Proposal,
    signs: &mut [i8],
) -> Result<Result<Frac128, BoundFailure>, AllocError>
    requires forms { HasItsForms batch.now }
    requires fills { length proposal.now.fills ≡ length batch.now.orders }
    requires cover { IsCoverOf batch.now proposal.now.cover }
    requires states { IsOnStates batch.now.underlyings proposal.now.measure }
    requires signs { AreSigns batch.now.orders (length signs.old) }
    ensures { IfOk result (λ judged.
        as_fraction judged ≡ covered_bound limit batch.now proposal.now) }
{
    let covered = is_covered(alloc, batch, proposal, signs)?;
    Ok(bound_where(batch, covered, &proposal.measure))
}

// The bound of the measure, where the condition of the cover holds.
fn bound_where(
    batch: &Batch,
    covered: Result<bool, Wide>,
    measure: &Measure,
) -> Result<Frac128, BoundFailure>
    requires forms { HasItsForms batch.now }
    requires states { IsOnStates batch.now.underlyings measure.now }
    ensures { as_fraction result ≡ bound_where limit batch.now.orders covered measure.now }
{
    if !covered? {
        return Err(BoundFailure::No(FailedCondition::Cover));
    }
    measured_bound(batch, measure)
}

// Whether the surplus is what it should be and the cover shows that the liability is enough.
fn is_covered(
    alloc: Global,
    batch: &Batch,
    proposal: &Proposal,
    signs: &mut [i8],
) -> Result<Result<bool, Wide>, AllocError>
    requires forms { HasItsForms batch.now }
    requires fills { length proposal.now.fills ≡ length batch.now.orders }
    requires cover { IsCoverOf batch.now proposal.now.cover }
    requires signs { AreSigns batch.now.orders (length signs.old) }
    ensures { IfOk result (λ covered. covered ≡ proposal_covered limit batch.now proposal.now) }
{
    let fills = proposal.fills.as_slice();
    match surplus_holds(batch.orders.as_slice(), fills, &proposal.claim) {
        Ok(true) => cover_shows(
            alloc,
            batch,
            fills,
            &proposal.claim.liability,
            &proposal.cover,
            signs,
        ),
        Ok(false) => Ok(Ok(false)),
        Err(wide) => Ok(Err(wide)),
    }
}

/// The judgement of a batch that was cleared by fills with a cover, a measure and the bound that is
/// told of it. Yes where the proposal of these proves a bound, and it is the bound that is told;
/// `No` and `Wide` as `judge_proposal` tells them, and then `No(Bound)` where the bound is another.
/// A yes shows what a bound shows. The batch is on 1 to 8 underlyings, and there are as many signs
/// as the orders have legs, at most 1,024; what they held does not matter. Takes memory as
/// `judge_proposal` does; the error is want of it.
pub fn bounded_verdict(
    alloc: Global,
    batch: &Batch,
    proposal: &Proposal,
    bound: &Frac128,
    signs: &mut [i8],
) -> Result<Verdict, AllocError>
    requires underlyings { (1 ≤ batch.now.underlyings) × (batch.now.underlyings ≤ 8) }
    requires signs { length signs.old ≡ leg_count batch.now.orders }
    requires few { leg_count batch.now.orders ≤ MAX_SIGNS }

    ensures steps { IfOk result (λ judgement. judgement
        ≡ bounded_verdict_of limit batch.now proposal.now (fraction_of bound.now)) }

    ensures met { IfOk result (λ judgement. OnYes judgement (AreMet batch.now proposal.now)) }
    ensures unmet { IfOk result (λ judgement. IfNo judgement
        (IsFirstUnmetBounded batch.now proposal.now (fraction_of bound.now))) }

    ensures covers { IfOk result (λ judgement.
        OnYes judgement (IsCovered batch.now (as_outcome proposal.now))) }
    ensures measured { IfOk result (λ judgement.
        OnYes judgement (HasBound batch.now proposal.now (fraction_of bound.now))) }
    ensures bounds { IfOk result (λ judgement.
        OnYes judgement (BoundSurplus batch.now proposal.now (fraction_of bound.now))) }
{
    verdict_on(alloc, batch, proposal, bound, signs)
}

// The judgement where the bound is said to be this number.
fn verdict_on(
    alloc: Global,
    batch: &Batch,
    proposal: &Proposal,
    bound: &Frac128,
    signs: &mut [i8],
) -> Result<Verdict, AllocError>
    requires underlyings { (1 ≤ batch.now.underlyings) × (batch.now.underlyings ≤ 8) }
    requires signs { length signs.old ≡ leg_count batch.now.orders }
    requires few { leg_count batch.now.orders ≤ MAX_SIGNS }
    ensures { IfOk result (λ judgement. judgement
        ≡ bounded_verdict_of limit batch.now proposal.now (fraction_of bound.now)) }
{
    let found = judged(alloc, batch, proposal, signs)?;
    Ok(compared(found, bound))
}
