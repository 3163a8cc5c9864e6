//! Whether a cover by cells closes over the fills of a batch.

ghost use Rattle.std.specs.Prelude.{◌≡◌, ◌≤◌, ◌-◌, length, map, true, IfOk};
ghost use Rattle.std.specs.List.{All};
ghost use Rattle.exact_num.specs.Fits.{meaning};
ghost use Rattle.exact_num.specs.Fraction.{IsNotBelowZero};
ghost use Rattle.exact_num.specs.Steps.{fold_steps};
ghost use Rattle.frac.specs.Range.{limit};
ghost use Rattle.frac.specs.Value.{fraction_of};
ghost use Rattle.form.specs.Limits.{HasItsForms};
ghost use Rattle.cell_cover.specs.Classes.{classes_of};
ghost use Rattle.cell_cover.specs.Formed.{is_formed};
ghost use Rattle.cell_cover.specs.Kept.{state_of};
ghost use Rattle.cell_cover.specs.Kinked.{all_as, classes_as, knowledge_as};
ghost use Rattle.cell_cover.specs.NodeWalk.{walk_nodes};
ghost use Rattle.cell_cover.specs.Laws.{ClosesByCells, IsEnough};
ghost use Rattle.cell_cover.specs.Read.{node_of};
ghost use Rattle.cell_cover.specs.Rows.{row_of};
ghost use Rattle.cell_cover.specs.Verdicts.{cells_verdict, nodes_answer, verdict_of};
ghost use Rattle.cell_cover.specs.Walk.{root_cell, root_known, root_step};
ghost use Rattle.cell_cover.specs.declared.cover.CellVerdict.TheVariants.{Closed, Open};

use crate::cover::{CellVerdict, Node};
use crate::formed;
use crate::kinked::Kinked;
use crate::kinks::{add_kinks, classes_of};
use crate::mixing::with_bound;
use crate::rows::at_least_zero;
use crate::vectors::{Class, Knowledge, Row, Sign};
use crate::walk::{Taken, Walk};
use exact_num::Wide;
use form::Batch;
use frac::Frac128;
use std::alloc::{AllocError, Global};

/// Whether the nodes are those of one tree, and nothing follows it; and each of its lists has
/// classes of the batch, that rise.
pub fn is_formed(alloc: Global, batch: &Batch, nodes: &[Node]) -> Result<bool, AllocError>
    requires { HasItsForms batch.now }
    ensures { IfOk result (λ formed. formed
        ≡ is_formed (length (classes_of batch.now.orders)) (map node_of nodes.now)) }
{
    let classes = classes_of(
        alloc,
        batch.underlyings as usize + 1,
        batch.orders.as_slice(),
    )?;
    let listed = classes.as_slice();
    Ok(formed::is_formed(listed.len(), nodes))
}

/// Whether the cover closes over the fills with the liability, for nodes that are formed: every
/// leaf of it shows that no state of its cell owes more. `Wide` has the first step that does not
/// fit, where nothing failed before; the error is want of memory. Where no fill is below 0, `Closed`
/// shows that the liability is enough, and `Open` that the cover does not close. Its steps are as
/// many as the text is long, and no call of it goes deeper for a deeper tree. It takes memory for at
/// most 320 bytes for each node on the way to a leaf, and 1,300 for each class.
pub fn closes(
    alloc: Global,
    batch: &Batch,
    fills: &[Frac128],
    liability: &Frac128,
    nodes: &[Node],
) -> Result<CellVerdict, AllocError>
    requires forms { HasItsForms batch.now }
    requires fills { length fills.now ≡ length batch.now.orders }
    requires formed { is_formed (length (classes_of batch.now.orders)) (map node_of nodes.now)
        ≡ true }
    ensures walked { IfOk result (λ verdict. verdict
        ≡ cells_verdict batch.now.underlyings batch.now.orders (map fraction_of fills.now)
        (fraction_of liability.now) (map node_of nodes.now)) }
    ensures closed { IfOk result (λ verdict. verdict ≡ Closed
        → ClosesByCells batch.now.underlyings batch.now.orders (map fraction_of fills.now)
        (fraction_of liability.now) (map node_of nodes.now)) }
    ensures enough { All IsNotBelowZero (map fraction_of fills.now) → IfOk result (λ verdict.
        verdict ≡ Closed → IsEnough batch.now.underlyings batch.now.orders
        (map fraction_of fills.now) (fraction_of liability.now)) }
    ensures refuted { IfOk result (λ verdict. verdict ≡ Open
        → ClosesByCells batch.now.underlyings batch.now.orders (map fraction_of fills.now)
        (fraction_of liability.now) (map node_of nodes.now) → ⊥) }
{
    let orders = batch.orders.as_slice();
    let entries = batch.underlyings as usize + 1;
    let mut classes = classes_of(alloc, entries, orders)?;
    match add_kinks(entries, &mut classes, orders, fills) {
        Ok(slope) => {
            let kinked = Kinked {
                classes: classes.as_slice(),
                liability,
                entries,
            };
            from_root(alloc, kinked, &slope, nodes)
        }
        Err(wide) => Ok(CellVerdict::Wide(wide)),
    }
}

/// The sums at the root.
fn root_sums(kinked: Kinked, slope: &Row) -> Result<Row, Wide>
    ensures { meaning (row_of kinked.entry.entries) result ≡ fold_steps (root_step limit)
        (row_of kinked.entry.entries slope.now) (classes_as kinked.entry) }
{
    let mut sums = *slope;
    for class in kinked.classes {
        let bound = at_least_zero(kinked.entries, &class.entries);
        sums = with_bound(kinked.entries, Sign::Plus, class.kink, &bound, &sums)?;
    }
    Ok(sums)
}

/// What is known at the root: each class is bounded by its entries, with 0 for those below.
fn root_known(
    alloc: Global,
    entries: usize,
    classes: &[Class],
) -> Result<Vec<Knowledge>, AllocError>
    requires { entries ≤ 9 }
    ensures { IfOk result (λ known. knowledge_as entries known.items
        ≡ map root_known (all_as entries classes.now)) }
{
    let mut known = Vec::new(alloc);
    for class in classes {
        known.push(Knowledge::Bounded(at_least_zero(entries, &class.entries)))?;
    }
    Ok(known)
}

/// Walks over the nodes from the root on.
fn from_root(
    alloc: Global,
    kinked: Kinked,
    slope: &Row,
    nodes: &[Node],
) -> Result<CellVerdict, AllocError>
    ensures { IfOk result (λ verdict. verdict ≡ verdict_of
        (nodes_answer (kinked.entry.entries - 1) (classes_as kinked.entry)
        (fraction_of kinked.entry.liability.now) (map node_of nodes.now)
        (root_cell limit (classes_as kinked.entry) (row_of kinked.entry.entries slope.now)))) }
{
    match root_sums(kinked, slope) {
        Ok(sums) => {
            let mut walk = Walk {
                sums,
                known: root_known(alloc, kinked.entries, kinked.classes)?,
                changes: Vec::new(alloc),
                saved: Vec::new(alloc),
            };
            walk_over(&mut walk, kinked, nodes)
        }
        Err(wide) => Ok(CellVerdict::Wide(wide)),
    }
}

/// Takes one node after another.
fn walk_over(walk: &mut Walk, kinked: Kinked, nodes: &[Node]) -> Result<CellVerdict, AllocError>
    requires { length walk.old.known.items ≡ length kinked.classes.now }
    ensures { IfOk result (λ verdict. verdict ≡ verdict_of
        (walk_nodes limit (kinked.entry.entries - 1) (classes_as kinked.entry)
        (fraction_of kinked.entry.liability.now) (map node_of nodes.now)
        (state_of kinked.entry.entries walk.old))) }
{
    for node in nodes {
        match walk.take(kinked, node)? {
            Taken::On => {}
            Taken::Ended => return Ok(CellVerdict::Closed),
            Taken::Open => return Ok(CellVerdict::Open),
            Taken::Wide(wide) => return Ok(CellVerdict::Wide(wide)),
        }
    }
    Ok(CellVerdict::Open)
}
