//! What a search finds.

use form::State;
use sign_tree::SignTree;

/// Whether the liability is enough for the fills at every state.
#[derive(Debug, Drop)]
pub enum Found {
    /// It is: a tree that closes.
    Closed(SignTree),
    /// It is not: a primitive state at which the fills owe more than the liability times t.
    Violated(State),
}
