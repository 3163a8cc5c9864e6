// Whether proposals that are judged a bound are written within their ranges.
ghost use Rattle.std.specs.Prelude.{◌≡◌, ◌≤◌, IsTrue, length, map, true};
ghost use Rattle.form.specs.Limits.{IsWithinLimits};
ghost use Rattle.cell_cover.specs.Classes.{classes_of};
ghost use Rattle.cell_cover.specs.Formed.{is_formed};
ghost use Rattle.cell_cover.specs.Read.{node_of};
ghost use Rattle.reply_print.specs.Within.{IsCoverWithin};
ghost use Rattle.proposal_text.specs.CellRanges.{AreCellsWithin};
ghost use Rattle.proposal_text.specs.Counts.{IsShortCover};
ghost use Rattle.proposal_text.specs.Within.{IsMeasureWithin, IsProposalWithin};
ghost use Rattle.proposals.specs.Judged.{IsJudgedBound};

use cell_cover::cover::Node;
use cert_check::{Cover, Measure};
use form::{Batch, Order};
use proposal_check::{Proposal, ProposalCover};
use proposal_text::cells::are_few;
use proposal_text::counts::{MAX_POINTS, is_short_cover};
use reply_guess::ranges::is_certificate_within;

// Yes only where the cover of a proposal for the batch and its measure are within their ranges.
pub(crate) fn is_written(batch: &Batch, proposal: &Proposal) -> bool
    requires within { IsWithinLimits batch.now }
    requires judged { IsJudgedBound batch.now proposal.now }
    ensures { IsTrue result → IsProposalWithin proposal.now }
{
    match &proposal.cover {
        ProposalCover::Checked(cover) => is_checked_within(cover, &proposal.measure),
        ProposalCover::Match => is_measure_within(&proposal.measure),
        ProposalCover::Cells(nodes) => {
            are_cells_within(batch.orders.as_slice(), nodes.as_slice())
                && is_measure_within(&proposal.measure)
        }
    }
}

// Yes only where a cover that a verdict knows and the measure are within their ranges.
fn is_checked_within(cover: &Cover, measure: &Measure) -> bool
    ensures { IsTrue result →
        (IsCoverWithin cover.now × IsShortCover cover.now) × IsMeasureWithin measure.now }
{
    let few = measure.points.as_slice().len() <= MAX_POINTS;
    few && is_short_cover(cover) && is_certificate_within(cover, measure)
}

// Yes only where the measure is within its ranges.
fn is_measure_within(measure: &Measure) -> bool
    ensures { IsTrue result → IsMeasureWithin measure.now }
{
    let few = measure.points.as_slice().len() <= MAX_POINTS;
    few && is_certificate_within(&Cover::Line, measure)
}

// Yes only where cells that are formed for the orders are within their ranges.
fn are_cells_within(orders: &[Order], nodes: &[Node]) -> bool
    requires few { length orders.now ≤ 256 }
    requires formed { is_formed (length (classes_of orders.now)) (map node_of nodes.now) ≡ true }
    ensures { IsTrue result → AreCellsWithin nodes.now }
{
    let _count = orders.len();
    are_few(nodes)
}
