//! What holds of the numbers of every run: the contract of a function that does nothing.
ghost use Rattle.run_values.specs.Laws.{RunsHaveValues};

/// Of a batch within the limits a run clears numbers in lowest terms with both parts at most
/// `2^127 - 1`: fills, liability, surplus, weights and multipliers. The states of its measure have
/// entries up to there, and the places of its tree are those of legs. Where it stops at a step that
/// does not fit, the operands are such numbers.
pub fn runs_have_values()
    ensures { RunsHaveValues }
{}
