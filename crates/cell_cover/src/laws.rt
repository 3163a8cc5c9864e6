//! What a cover by cells shows: the contracts of functions that do nothing.

ghost use Rattle.cell_cover.specs.Laws.{CellCertificateCovers, CellsReadOneWay, ClassesArePrimitive, ClosedCellsHold, WalksDecide};
ghost use Rattle.cell_cover.specs.NodeWalk.{WalksByNodes};
ghost use Rattle.cell_cover.specs.Worked.{CellsAsWorked};

/// An option is its class times its factor, and the entries of a class have no common divisor.
pub fn classes_are_primitive()
    ensures { ClassesArePrimitive }
{}

/// A cover by cells that closes shows that its liability is enough at every state.
pub fn closed_cells_hold()
    ensures { ClosedCellsHold }
{}

/// So fills over which it closes cover the premium less the liability.
pub fn cell_certificate_covers()
    ensures { CellCertificateCovers }
{}

/// No two trees are written alike.
pub fn cells_read_one_way()
    ensures { CellsReadOneWay }
{}

/// Where each step of the walk over a cover fits, it answers whether the cover closes.
pub fn walks_decide()
    ensures { WalksDecide }
{}

/// The walk node by node, with the sides that are still to come, is that over the tree.
pub fn walks_by_nodes()
    ensures { WalksByNodes }
{}

/// Covers worked by hand close, and are open or too wide with a number or a node changed.
pub fn cells_as_worked()
    ensures { CellsAsWorked }
{}
