//! How long the certificate of a proposal may be, so that no judgement holds up all others.
ghost use Rattle.std.specs.Prelude.{◌≡◌, IsTrue};
ghost use Rattle.proposal_text.specs.Counts.{IsShortCover, is_short_cover};

use cert_check::Cover;

/// The most nodes of a sign tree.
pub const MAX_TREE_NODES: usize = 20_000;

/// The most points of a measure.
pub const MAX_POINTS: usize = 1_024;

/// Whether a cover that a verdict knows has not too many nodes.
pub fn is_short_cover(cover: &Cover) -> bool
    ensures same { result ≡ is_short_cover cover.now }
    ensures short { IsTrue result → IsShortCover cover.now }
{
    match cover {
        Cover::Line => true,
        Cover::Tree(tree) => tree.nodes.as_slice().len() <= MAX_TREE_NODES,
    }
}
