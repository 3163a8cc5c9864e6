//! What a margin is.

use exact_num::Wide;
use form::State;
use frac::Frac128;
use sign_tree::SignTree;

/// The margin of positions of one market.
#[derive(Debug, Drop)]
pub enum LeastMargin {
    /// The least liability that covers what they owe at every state, a settlement at which they owe
    /// just that, and a tree that closes for it.
    Least {
        liability: Frac128,
        at: State,
        tree: SignTree,
    },
    /// No liability covers what they owe along this ray.
    Unbounded {
        ray: State,
    },
    /// A step of the run did not fit; `unit` is the number of units spent by then.
    Wide {
        unit: u32,
        wide: Wide,
    },
    /// The run wants one unit more than its limit.
    Budget,
}
