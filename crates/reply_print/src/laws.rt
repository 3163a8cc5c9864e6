//! Laws of the lines.
ghost use Rattle.reply_print.specs.Laws.{LinesAreCompact, LinesAreRead};

/// A line is the compact text of its value.
#[tactic(auto, using(crate::proofs::LineLaws::line_is_compact))]
pub fn lines_are_compact()
    ensures { LinesAreCompact }
{}

/// A line reads as its value, where the line and its reply are within their ranges.
pub fn lines_are_read()
    ensures { LinesAreRead }
{}
