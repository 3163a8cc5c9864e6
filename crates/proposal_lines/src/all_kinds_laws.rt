//! Laws over the definitions: each is the contract of a function that does nothing.
ghost use Rattle.proposal_lines.specs.AllKindsLaws.{AllAnswerAsRun, OutputsAreOfLines, OutputsTell};

/// Each line, whatever words may begin it, is answered as in a run, or by a refusal, by what is
/// quoted or by what is told of a margin, and then the exchange is as it was.
pub fn all_answer_as_run()
    ensures { AllAnswerAsRun }
{}

/// Answered between two reads, an input has the same output as line by line, by any way of
/// answering.
pub fn outputs_are_of_lines()
    ensures { OutputsAreOfLines }
{}

/// What is written for an input is the text of a run's answers, of which each keeps what is
/// promised, and of such texts beside them.
pub fn outputs_tell()
    ensures { OutputsTell }
{}
