//! The certificates of proposals that are read.
ghost use Rattle.std.specs.Prelude.{◌≡◌, IfOk, codes};
ghost use Rattle.serde_json.specs.View.{view};
ghost use Rattle.reply_text.specs.Taking.{take_at};
ghost use Rattle.proposal_text.specs.CellReading.{cells_from as cells_found};
ghost use Rattle.proposal_text.specs.CoverReading.{has_cells as cells_are_there, written_cover_at as cover_written, proof_numbers as proof_is_numbered, proof_shape as proof_is, proposal_cover_at as cover_found, proposal_cover_numbers as cover_is_numbered, proposal_cover_shape as cover_is, proved_by as proposal_proved};

use crate::cells_shape::{cells_numbers, cells_shape};
use crate::cells_values::cells_from;
use crate::counts::{MAX_POINTS, is_short_cover};
use cell_cover::cover::Nodes;
use cert_check::{Claim, Fills, Measure, Points};
use frac::Frac128;
use proposal_check::{Proposal, ProposalCover};
use reply_print::cleared_numbers::{are_points as are_numbered, cover_numbers};
use reply_print::cleared_shape::{are_points, cover_shape};
use reply_print::look::{has_at, has_members, has_word, is_word};
use reply_text::certificate_values::{PointReader, cover_at};
use reply_text::taking::list_at;
use serde_json::Value;
use std::alloc::{AllocError, Global};

fn proposal_cover_shape(value: &Value) -> bool
    ensures { result ≡ cover_is (view value.now) }
{
    is_word(value, "match") || cover_shape(value) || cells_shape(value)
}

// Whether the value has the shape of a certificate.
pub(crate) fn proof_shape(value: &Value) -> bool
    ensures { result ≡ proof_is (view value.now) }
{
    has_members(value, 2)
        && has_at(value, "cover", proposal_cover_shape)
        && has_at(value, "measure", are_points)
}

fn proposal_cover_numbers(value: &Value) -> bool
    ensures { result ≡ cover_is_numbered (view value.now) }
{
    is_word(value, "match") || cover_numbers(value) || cells_numbers(value)
}

// Whether the texts of a certificate are numbers where they should be.
pub(crate) fn proof_numbers(value: &Value) -> bool
    ensures { result ≡ proof_is_numbered (view value.now) }
{
    has_at(value, "cover", proposal_cover_numbers) && has_at(value, "measure", are_numbered)
}

fn has_cells(value: &Value) -> bool
    ensures { result ≡ cells_are_there (view value.now) }
{
    value.get("cells").is_some()
}

fn cells_at(alloc: Global, certificate: &Value) -> Result<Option<Nodes>, AllocError>
    ensures { IfOk result (λ o. o ≡ take_at (codes "cover") cells_found (view certificate.now)) }
{
    match certificate.get("cover") {
        Some(found) => cells_from(alloc, found),
        None => Ok(None),
    }
}

// Cells, or a cover that a verdict knows and that is not too long.
fn written_cover_at(alloc: Global, certificate: &Value) -> Result<Option<ProposalCover>, AllocError>
    ensures { IfOk result (λ o. o ≡ cover_written (view certificate.now)) }
{
    if has_at(certificate, "cover", has_cells) {
        let Some(nodes) = cells_at(alloc, certificate)? else {
            return Ok(None);
        };
        return Ok(Some(ProposalCover::Cells(nodes)));
    }
    let Some(cover) = cover_at(alloc, certificate)? else {
        return Ok(None);
    };
    if !is_short_cover(&cover) {
        return Ok(None);
    }
    Ok(Some(ProposalCover::Checked(cover)))
}

// The cover of a certificate.
fn proposal_cover_at(
    alloc: Global,
    certificate: &Value,
) -> Result<Option<ProposalCover>, AllocError>
    ensures { IfOk result (λ o. o ≡ cover_found (view certificate.now)) }
{
    if has_word(certificate, "cover", "match") {
        return Ok(Some(ProposalCover::Match));
    }
    written_cover_at(alloc, certificate)
}

// The proposal of these fills and this claim under a certificate whose measure is not too long.
pub(crate) fn proved_by(
    alloc: Global,
    fills: Vec<Frac128>,
    claim: Claim,
    certificate: &Value,
) -> Result<Option<Proposal>, AllocError>
    ensures { IfOk result (λ o. o ≡ proposal_proved fills.items claim (view certificate.now)) }
{
    let Some(cover) = proposal_cover_at(alloc, certificate)? else {
        return Ok(None);
    };
    let Some(points) = list_at(alloc, certificate, "measure", &PointReader)? else {
        return Ok(None);
    };
    if points.len() > MAX_POINTS {
        return Ok(None);
    }
    let measure = Measure {
        points: Points::from_vec(points),
    };
    Ok(Some(Proposal {
        fills: Fills::from_vec(fills),
        claim,
        cover,
        measure,
    }))
}
