//! What the check of a line shows, and what its states are: the contracts of functions that do
//! nothing.

ghost use Rattle.line_cover.specs.Laws.{LineCoversHoldAtStates, LinesCloseAtStates};
ghost use Rattle.line_cover.specs.Laws.{LineStatesAreBreakpoints, LineStatesAreFew};
ghost use Rattle.line_cover.specs.Laws.{LineStatesAreStates, LineStatesRise};
ghost use Rattle.line_cover.specs.Laws.{LinesThatFailDoNotClose, LinesThatHoldClose};
ghost use Rattle.line_cover.specs.Worked.{LinesByHand};

/// Where the check holds, the line is covered.
pub fn lines_that_hold_close()
    ensures { LinesThatHoldClose }
{}

/// Where it fails, the line is not covered.
pub fn lines_that_fail_do_not_close()
    ensures { LinesThatFailDoNotClose }
{}

/// A line is covered where the liability is enough at each of its states, and only there.
pub fn line_covers_hold_at_states()
    ensures { LineCoversHoldAtStates }
{}

/// The same of fills and a liability that are fractions.
pub fn lines_close_at_states()
    ensures { LinesCloseAtStates }
{}

/// Each of its states is a state of one underlying.
pub fn line_states_are_states()
    ensures { LineStatesAreStates }
{}

/// They are the price 0, the breakpoint of each leg that has one, and the slope beyond all prices.
pub fn line_states_are_breakpoints()
    ensures { LineStatesAreBreakpoints }
{}

/// There are at most two more than legs.
pub fn line_states_are_few()
    ensures { LineStatesAreFew }
{}

/// They stand in rising price, none twice.
pub fn line_states_rise()
    ensures { LineStatesRise }
{}

/// The states of batches that are worked by hand, and a spread of two calls that two options cover:
/// with its second leg bought in place of sold the market owes 2 in the slope.
pub fn lines_by_hand()
    ensures { LinesByHand }
{}
