//! What the walk of a tree shows: the contracts of functions that do nothing.

ghost use Rattle.sign_tree.specs.Laws.{OpenWalksCloseNoTree, WalksCloseTrees};
ghost use Rattle.sign_tree.specs.Worked.{BundlesAsWorked, TreesAsWorked};

/// Where the walk closes, the nodes and multipliers are those of a tree that is well formed and
/// closes over the fills.
pub fn walks_close_trees()
    ensures { WalksCloseTrees }
{}

/// Where the walk is open, no tree is written by the nodes and multipliers that is well formed and
/// closes over the fills.
pub fn open_walks_close_no_tree()
    ensures { OpenWalksCloseNoTree }
{}

/// A tree worked by hand closes, and is open or too wide with a number or a node changed.
pub fn trees_as_worked()
    ensures { TreesAsWorked }
{}

/// So does one over a bundle with a short leg, whose legs have places of their own and fills that
/// count.
pub fn bundles_as_worked()
    ensures { BundlesAsWorked }
{}
