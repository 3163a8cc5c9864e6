//! Laws over the definitions: each is the contract of a function that does nothing.
ghost use Rattle.quote_lines.specs.Laws.{PricedLinesAreThresholds, QuotedLinesAreThresholds, QuotesAnswerAsRun, QuotesTellAnswers, TriedOrdersAreFilled};

/// Each line is answered as in a run, or by a refusal or by what is quoted, and then the exchange is
/// as it was.
pub fn quotes_answer_as_run()
    ensures { QuotesAnswerAsRun }
{}

/// A line that asks for a quote and meets no refusal is answered by a quoted line. Its bid is the
/// price from which on a further buy raises the greatest surplus of the market's live orders, and
/// its ask that of a further sell: `never` where no price raises it, `unmarked` where a clear that
/// would have told it is not marked optimal.
pub fn quoted_lines_are_thresholds()
    ensures { QuotedLinesAreThresholds }
{}

/// A line that asks for prices and meets no refusal is answered by a priced line. Its ask is the
/// price from which on a further buy of so many raises the greatest surplus of the market's live
/// orders, and its bid that of a further sell: `never` where no price raises it, `unmarked` where a
/// clear is not marked optimal or more than 60 a side are wanted.
pub fn priced_lines_are_thresholds()
    ensures { PricedLinesAreThresholds }
{}

/// What is written for an input is the text of the answers to its lines: those of a run, each of
/// which keeps what is promised of a run and which leave the house its gains, and refusals and
/// quotes beside them.
pub fn quotes_tell_answers()
    ensures { QuotesTellAnswers }
{}

/// What is told of an order that is tried is what a clear of the live orders with this one at their
/// end tells: its fills cover its surplus, which is not below 0, and the fill of the order is from 0
/// to its quantity.
pub fn tried_orders_are_filled()
    ensures { TriedOrdersAreFilled }
{}
