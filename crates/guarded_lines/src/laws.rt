//! Laws over the definitions: each is the contract of a function that does nothing.
ghost use Rattle.guarded_lines.specs.Laws.{GuardedAnswerAsRun, GuardedTellAnswers, WithdrawalsAreCovered};

/// Each line is answered as in a run, or by a refusal or by what is told of a margin, and then the
/// exchange is as it was.
pub fn guarded_answer_as_run()
    ensures { GuardedAnswerAsRun }
{}

/// What is written for an input is the text of the answers to its lines: those of a run, each of
/// which keeps what is promised of a run and which leave the house its gains, and refusals and
/// margins beside them.
pub fn guarded_tell_answers()
    ensures { GuardedTellAnswers }
{}

/// After a withdrawal that is accepted, were all markets in which the account has positions settled
/// next, in rising number and at any prices, its balance would not be below 0.
pub fn withdrawals_are_covered()
    ensures { WithdrawalsAreCovered }
{}
