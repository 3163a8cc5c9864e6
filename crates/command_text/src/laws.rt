//! Laws over the definitions: each is the contract of a function that does nothing.
ghost use Rattle.command_text.specs.Asked.{RangeIsFirstOutside, SyntaxIsNoNumber};
ghost use Rattle.command_text.specs.Worked.{LimitsAsWorked, LinesAsWorked, RequestsAsWorked};

/// What lines say, and how an input is cut into lines: worked rows.
pub fn lines_as_worked()
    ensures { LinesAsWorked }
{}

/// Each limit of a number of a command, by a line at it and one beyond it, and the most bytes of an
/// input that is read whole.
pub fn limits_as_worked()
    ensures { LimitsAsWorked }
{}

/// Requests at the ends of the ranges of their numbers and beyond them, and which lines the words
/// of the program take: worked rows.
pub fn requests_as_worked()
    ensures { RequestsAsWorked }
{}

/// Which fault the numbers of a line have: Syntax exactly where one is no number text, and else
/// Range at the place of the first that is out of its range.
pub fn faults_are_exact()
    ensures syntax { SyntaxIsNoNumber }
    ensures range { RangeIsFirstOutside }
{}
