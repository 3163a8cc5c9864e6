//! Laws over the answers to lines: each is the contract of a function that does nothing.
ghost use Rattle.asked_lines.specs.Apart.{OthersAreToldAlone};
ghost use Rattle.asked_lines.specs.Laws.{AskingChangesNothing};
ghost use Rattle.asked_lines.specs.Worked.{NumbersByHand};

use crate::questions::AnswersQuestions;

/// Of what is written for an input, the answers to the lines that ask nothing are what is written
/// for the input without those that ask, and the state after it is the same.
pub fn asking_changes_nothing<A: AnswersQuestions>()
    ensures { AskingChangesNothing A.asks A.step }
{}

/// Whatever an input is, the answers to the lines that ask nothing are what is written for these
/// lines as an input of their own, and the state after it is the same.
pub fn others_are_told_alone<A: AnswersQuestions>()
    ensures { OthersAreToldAlone A.asks A.step }
{}

/// Lines are numbered as if no line asked, and a line that asks has the number of the next.
pub fn numbers_by_hand()
    ensures { NumbersByHand }
{}
