//! Whether the liability of a proposal is enough, as its cover shows.

ghost use Rattle.std.specs.Prelude.{◌≡◌, IfOk, length, map, true};
ghost use Rattle.frac.specs.Range.{limit};
ghost use Rattle.frac.specs.Value.{fraction_of};
ghost use Rattle.form.specs.Limits.{HasItsForms};
ghost use Rattle.cell_cover.specs.Cells.{tree_in};
ghost use Rattle.cell_cover.specs.Classes.{classes_of};
ghost use Rattle.cell_cover.specs.Formed.{is_formed};
ghost use Rattle.cell_cover.specs.Read.{node_of};
ghost use Rattle.cert_check.specs.Tests.{AreSigns};
ghost use Rattle.proposal_check.specs.Covers.{IsCoverOf, cells_close, cover_shows, of_cells};

use crate::covers::ProposalCover;
use cell_cover::closes;
use cell_cover::cover::{CellVerdict, Nodes};
use cert_check::{cover_holds, fallback_holds};
use exact_num::Wide;
use form::Batch;
use frac::Frac128;
use std::alloc::{AllocError, Global};

// Whether the cover shows that the liability is enough. `Wide` comes where a step does not fit
// before it fails. The only other error is want of memory, for cells.
pub(crate) fn cover_shows(
    alloc: Global,
    batch: &Batch,
    fills: &[Frac128],
    liability: &Frac128,
    cover: &ProposalCover,
    signs: &mut [i8],
) -> Result<Result<bool, Wide>, AllocError>
    requires forms { HasItsForms batch.now }
    requires fills { length fills.now ≡ length batch.now.orders }
    requires cover { IsCoverOf batch.now cover.now }
    requires signs { AreSigns batch.now.orders (length signs.old) }
    ensures { IfOk result (λ shows. shows
        ≡ cover_shows limit batch.now fills.now liability.now cover.now) }
{
    match cover {
        ProposalCover::Checked(checked) => {
            Ok(cover_holds(batch, fills, liability, checked, signs))
        }
        ProposalCover::Match => Ok(fallback_holds(batch.orders.as_slice(), fills, liability)),
        ProposalCover::Cells(nodes) => cells_close(alloc, batch, fills, liability, nodes),
    }
}

// Whether the cells close.
fn cells_close(
    alloc: Global,
    batch: &Batch,
    fills: &[Frac128],
    liability: &Frac128,
    nodes: &Nodes,
) -> Result<Result<bool, Wide>, AllocError>
    requires forms { HasItsForms batch.now }
    requires fills { length fills.now ≡ length batch.now.orders }
    requires formed { is_formed (length (classes_of batch.now.orders)) (map node_of nodes.now)
        ≡ true }
    ensures { IfOk result (λ closes. closes
        ≡ cells_close limit batch.now.underlyings batch.now.orders (map fraction_of fills.now)
        (fraction_of liability.now) (tree_in (map node_of nodes.now))) }
{
    let verdict = closes(alloc, batch, fills, liability, nodes.as_slice())?;
    Ok(of_cells(verdict))
}

// Whether they are closed.
fn of_cells(verdict: CellVerdict) -> Result<bool, Wide>
    ensures { result ≡ of_cells verdict }
{
    match verdict {
        CellVerdict::Closed => Ok(true),
        CellVerdict::Open => Ok(false),
        CellVerdict::Wide(wide) => Err(wide),
    }
}
