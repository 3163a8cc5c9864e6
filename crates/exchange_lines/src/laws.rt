//! Laws over the definition of the output: each is the contract of a function that does nothing.

ghost use Rattle.exchange_lines.specs.LineSteps.{RunsAreByLines};
ghost use Rattle.exchange_lines.specs.Promises.{AnswersGain, OutputIsAnswers, OfEachAnswer, IsCoveredIn, IsGreatestIn, IsJudgedYesIn, IsMarkedIn, RunsTellAnswers};

/// The output of an input is the text of the answers to its lines.
pub fn output_is_answers()
    ensures { OutputIsAnswers }
{}

/// Each answer that clears a batch tells fills that cover its surplus at every settlement, which is
/// not below 0.
pub fn answers_are_covered()
    ensures { OfEachAnswer IsCoveredIn }
{}

/// Each that marks its batch optimal tells the greatest surplus of any fractional fills, as the
/// measure of the outcome proves.
pub fn optimal_is_greatest()
    ensures { OfEachAnswer IsGreatestIn }
{}

/// The verdict on each that clears a batch is yes.
pub fn answers_are_judged_yes()
    ensures { OfEachAnswer IsJudgedYesIn }
{}

/// Each that clears a batch has the mark and the units of the end of its reference run within the
/// budget of its command.
pub fn answers_are_marked()
    ensures { OfEachAnswer IsMarkedIn }
{}

/// Where a market of a cleared batch is settled later, the house has gained of the batch at least
/// the surplus that its reply tells, by the premiums of its fills and the payouts that the settled
/// reply tells, and the house's entries sum to it.
pub fn answers_gain()
    ensures { AnswersGain }
{}

/// What a run's step writes line by line is the output of the run.
pub fn runs_are_by_lines()
    ensures { RunsAreByLines }
{}

/// What a run writes is the text of its answers to the lines of its input, each of which keeps what
/// is promised, and which leave the house its gains.
pub fn runs_tell_answers()
    ensures { RunsTellAnswers }
{}
