//! A cover by cells as it is written.

use exact_num::Wide;
use frac::Frac128;
use lists::List;

/// A class, counted from 1, and its multiplier.
#[derive(Clone, Copy, Debug, PartialEq, Eq)]
pub struct Multiplier {
    pub class: u32,
    pub by: Frac128,
}

/// Multipliers, which contracts see as their list.
pub type Multipliers = List<Multiplier>;

/// Classes, counted from 1, which contracts see as their list.
pub type ClassNumbers = List<u32>;

/// A node of a cover. Nodes stand in preorder: each before its sides.
#[derive(Debug, Drop)]
pub enum Node {
    /// Both signs of a class, first plus and then minus.
    Split {
        class: u32,
    },
    /// A class is bounded, in the one side, by what the multipliers of classes with a sign show.
    Bound {
        class: u32,
        minus: Multipliers,
        plus: Multipliers,
    },
    /// The classes that stand with their whole kink, and the multipliers of others.
    Leaf {
        full: ClassNumbers,
        multipliers: Multipliers,
    },
}

/// Nodes, which contracts see as their list.
pub type Nodes = List<Node>;

/// Whether a cover closes, or the first step that does not fit.
#[derive(Clone, Copy, Debug, PartialEq, Eq)]
pub enum CellVerdict {
    Closed,
    Open,
    Wide(Wide),
}
