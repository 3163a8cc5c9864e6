//! Laws of the reading: the contracts of functions that do nothing.
ghost use Rattle.proposal_text.specs.Laws.{LimitsAsWorked, RepliesReadExactly, SubmissionsReadExactly};

/// A text proposes something exactly where it is its print and this is within its ranges.
pub fn submissions_read_exactly()
    ensures { SubmissionsReadExactly }
{}

/// A text reads as a line and its reply about proposals exactly where it is their print and these
/// are within their ranges.
pub fn replies_read_exactly()
    ensures { RepliesReadExactly }
{}

/// A tree, a measure and a cover by cells may have as much as the authors of proposals are told.
pub fn limits_as_worked()
    ensures { LimitsAsWorked }
{}
