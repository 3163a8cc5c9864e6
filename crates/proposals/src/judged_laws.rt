//! What proposals of nothing are: the contracts of functions that do nothing.

ghost use Rattle.proposals.specs.Judged.{NothingIsABound};

/// A proposal of nothing is judged a bound, for each batch within the limits.
pub fn nothing_is_a_bound()
    ensures { NothingIsABound }
{}
