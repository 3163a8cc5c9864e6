//! The proposal that is handed out.

ghost use Rattle.std.specs.Prelude.{IfOk};
ghost use Rattle.form.specs.Limits.{IsWithinLimits};
ghost use Rattle.proposals.specs.Judged.{IsJudgedBound};
ghost use Rattle.match_proposals.specs.Least.{EarnsTheMatch};

use crate::by_cells::solve_by_cells;
use crate::on_line::solve_on_line;
use form::Batch;
use match_proposals::at_least_match;
use proposal_check::Proposal;
use proposals::judged_or_nothing;
use std::alloc::{AllocError, Global};

/// What the solver found for the batch, where that is judged a bound, and else a proposal of
/// nothing; or where that earns less than the match of each bundle by itself, that match. How near
/// surplus and bound come is measured, and no clause says it. The batch is within the limits of the
/// exchange. The error is want of memory.
pub fn propose(alloc: Global, batch: &Batch) -> Result<Proposal, AllocError>
    requires within { IsWithinLimits batch.now }
    ensures judged { IfOk result (IsJudgedBound batch.now) }
    ensures earned { IfOk result (EarnsTheMatch batch.now) }
{
    let found = judged_or_nothing(alloc, batch, found(alloc, batch)?)?;
    at_least_match(alloc, batch, found)
}

// What was found: with the line as its cover on one underlying, and with cells on several.
fn found(alloc: Global, batch: &Batch) -> Result<Option<Proposal>, AllocError> {
    if batch.underlyings > 1 {
        solve_by_cells(alloc, batch)
    } else {
        solve_on_line(alloc, batch)
    }
}
