//! Laws over the answers to any input: each is the contract of a function that does nothing.
ghost use Rattle.session_lines.specs.Laws.{OutputsAreAnswers, OutputsTellOnce};
ghost use Rattle.session_lines.specs.Worked.{QuestionsByHand};

use live_lines::LineSteps;

/// What is written for an input is the text of the answers to its lines.
pub fn outputs_are_answers<A: LineSteps>()
    ensures { OutputsAreAnswers A.step }
{}

/// Where each answer to a body is the text of lines, what is written tells each message once: those
/// that are answered First have, session by session, the numbers 1, 2, 3 and so on, their replies
/// are the output of their bodies as one input, and a message that is answered Repeat was answered
/// First before, with the same reply.
pub fn outputs_tell_once<A: LineSteps>()
    ensures { OutputsTellOnce A.step }
{}

/// What a session asks is told beside it, known or not: worked rows.
pub fn questions_by_hand()
    ensures { QuestionsByHand }
{}
