//! What a clearing answers for a batch, and the judgement of it.

use crate::measures::Measure;
use exact_num::Wide;
use frac::Frac128;
use lists::List;
use sign_tree::SignTree;

/// The fills of a batch, one for each order, which contracts see as their list.
pub type Fills = List<Frac128>;

/// What a cleared batch claims: the most that the house can owe, and what is left to it at every
/// settlement.
#[derive(Clone, Copy, Debug, PartialEq, Eq)]
pub struct Claim {
    pub liability: Frac128,
    pub surplus: Frac128,
}

/// The proof that the liability is enough: the line of a market on one underlying, or a tree of
/// signs.
#[derive(Debug, Drop)]
pub enum Cover {
    Line,
    Tree(SignTree),
}

/// Whether the surplus is proved the greatest, or why the run stopped.
#[derive(Debug, Drop)]
pub enum Mark {
    /// The run ended: the cover, and the measure whose bound is the surplus.
    Optimal { cover: Cover, measure: Measure },
    /// A step of the run did not fit.
    Wide(Wide),
    /// The run wanted one unit more than its limit.
    Budget,
}

/// What a clearing answers for a batch.
#[derive(Debug)]
pub struct Outcome {
    pub fills: Fills,
    pub claim: Claim,
    pub mark: Mark,
    pub units: u32,
}

// Not derived: whoever owns an outcome lets it go by this one call, and not field by field.
impl Drop for Outcome {
    fn drop(self) {
        let Outcome {
            fills: _fills,
            claim: _,
            mark: _mark,
            units: _,
        } = self;
    }
}

/// The condition that fails.
#[derive(Clone, Copy, Debug, PartialEq, Eq)]
pub enum FailedCondition {
    BatchShape,
    Fill,
    Cover,
    Measure,
    Bound,
}

/// The judgement of an outcome.
#[derive(Clone, Copy, Debug, PartialEq, Eq)]
pub enum Verdict {
    Yes,
    No(FailedCondition),
    Wide(Wide),
}
