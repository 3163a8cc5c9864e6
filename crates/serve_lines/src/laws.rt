//! Laws over the definitions: each is the contract of a function that does nothing.
ghost use Rattle.serve_lines.specs.Laws.{ClosedBatchesStay, ClosedMarketsStandStill};
ghost use Rattle.serve_lines.specs.Promises.{OutputsTellServing, WithoutPhases};

/// From when a market is closed until it is cleared, settled or opened again it is closed, and its
/// live orders stay as they are, whatever lines come, refused or not.
pub fn closed_markets_stand_still()
    ensures { ClosedMarketsStandStill }
{}

/// So the batch of a closed market that is there stays as it is, and what is proposed for its live
/// orders is for those that are cleared.
pub fn closed_batches_stay()
    ensures { ClosedBatchesStay }
{}

/// What is written for an input is the text of the answers to its lines, each of which keeps what
/// is promised where proposals are taken: closed markets change nothing of it.
pub fn outputs_tell_serving()
    ensures { OutputsTellServing }
{}

/// Where no line closes a market or opens one again, what is written is what an exchange writes
/// that has no phases.
pub fn without_phases()
    ensures { WithoutPhases }
{}
