//! The shape of a batch and a proposal for it.

ghost use Rattle.std.specs.Prelude.{◌≡◌, ◌≤◌, ◌&&◌, IfOk};
ghost use Rattle.form.specs.Limits.{HasItsForms};
ghost use Rattle.sign_tree.specs.Legs.{leg_count};
ghost use Rattle.sign_tree.specs.declared.closing.TheConstants.{MAX_SIGNS};
ghost use Rattle.cert_check.specs.Shape.{cover_fits};
ghost use Rattle.proposal_check.specs.Covers.{fits_batch, is_walkable};
ghost use Rattle.proposal_check.specs.Proposals.{has_shape, is_on_underlyings};

use crate::covers::{Proposal, ProposalCover};
use cell_cover::is_formed;
use cert_check::{Cover, cover_fits, has_fills, states_have};
use form::Batch;
use std::alloc::{AllocError, Global};

/// The most nodes times legs of a tree that is walked: a leaf is summed over all legs, and one
/// judgement may not hold up all others.
pub const MAX_WALKED: u128 = 2_000_000;

// Whether there are as many fills as orders, forms and states are those of the batch's underlyings,
// and the cover is one of the batch.
pub(crate) fn has_shape(
    alloc: Global,
    batch: &Batch,
    proposal: &Proposal,
    legs: usize,
) -> Result<bool, AllocError>
    requires underlyings { (1 ≤ batch.now.underlyings) × (batch.now.underlyings ≤ 8) }
    requires legs { legs ≡ leg_count batch.now.orders }
    requires few { legs ≤ MAX_SIGNS }
    ensures { IfOk result (λ has. has ≡ has_shape batch.now proposal.now) }
{
    if !is_on_underlyings(batch, proposal) {
        return Ok(false);
    }
    fits_batch(alloc, batch, &proposal.cover, legs)
}

// Whether there are as many fills as orders, and forms and states are those of the batch's
// underlyings.
fn is_on_underlyings(batch: &Batch, proposal: &Proposal) -> bool
    ensures { result ≡ is_on_underlyings batch.now proposal.now }
{
    has_fills(batch, proposal.fills.as_slice())
        && states_have(
            u16::from(batch.underlyings) + 1,
            proposal.measure.points.as_slice(),
        )
}

// Whether a line is the cover of one underlying, and a tree of several that is walked in few steps;
// and whether cells are the nodes of one tree over classes of the batch.
fn fits_batch(
    alloc: Global,
    batch: &Batch,
    cover: &ProposalCover,
    legs: usize,
) -> Result<bool, AllocError>
    requires forms { HasItsForms batch.now }
    requires legs { legs ≡ leg_count batch.now.orders }
    requires few { legs ≤ MAX_SIGNS }
    ensures { IfOk result (λ fits. fits ≡ fits_batch batch.now cover.now) }
{
    match cover {
        ProposalCover::Checked(checked) => Ok(is_short_enough(batch.underlyings, legs, checked)),
        ProposalCover::Match => Ok(true),
        ProposalCover::Cells(nodes) => is_formed(alloc, batch, nodes.as_slice()),
    }
}

// Whether the cover is one of so many underlyings, and walked in few steps over so many legs.
fn is_short_enough(underlyings: u8, legs: usize, cover: &Cover) -> bool
    requires { legs ≤ MAX_SIGNS }
    ensures { result ≡ (cover_fits underlyings cover.now && is_walkable legs cover.now) }
{
    cover_fits(underlyings, cover) && is_walkable(legs, cover)
}

// Whether a tree is walked in few steps over so many legs; a line always is.
fn is_walkable(legs: usize, cover: &Cover) -> bool
    requires { legs ≤ MAX_SIGNS }
    ensures { result ≡ is_walkable legs cover.now }
{
    match cover {
        Cover::Line => true,
        Cover::Tree(tree) => tree.nodes.as_slice().len() as u128 * legs as u128 <= MAX_WALKED,
    }
}
