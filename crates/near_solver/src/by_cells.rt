//! Proposals with covers by cells.

use crate::answer::{Solved, answer_of};
use cell_programs::solve::{CellAnswer, CellSolution, LIMITS, solve};
use cell_programs::written::CellCover;
use form::Batch;
use near_programs::rounding::WholeMeasure;
use proposal_check::{Proposal, ProposalCover};
use std::alloc::{AllocError, Global};

// The proposal of an answer on so many underlyings, with this measure.
fn covered(
    alloc: Global,
    underlyings: usize,
    time: u32,
    answer: CellAnswer,
    measure: &WholeMeasure,
) -> Result<Option<Proposal>, AllocError> {
    let CellAnswer {
        fills,
        surplus,
        cover,
    } = answer;
    let CellCover {
        liability,
        bytes: _,
        nodes,
    } = cover;
    let solved = Solved {
        underlyings,
        time,
        fills: &fills,
        liability,
        surplus,
        measure,
    };
    answer_of(alloc, &solved, ProposalCover::Cells(nodes))
}

/// A proposal for the batch that is near the greatest surplus, to be judged, with a cover by cells.
/// None where a number does not fit; the error is want of memory.
pub(crate) fn solve_by_cells(alloc: Global, batch: &Batch) -> Result<Option<Proposal>, AllocError> {
    let Some(solution) = solve(alloc, batch, LIMITS)? else {
        return Ok(None);
    };
    let CellSolution {
        answer,
        measure,
        time,
    } = solution;
    covered(
        alloc,
        usize::from(batch.underlyings),
        time,
        answer,
        &measure,
    )
}
