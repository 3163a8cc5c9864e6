//! What the definition of the run over rows of whole numbers implies.
ghost use Rattle.run_equivalence.specs.WholeLaws.{BoundsInUse, EliminatedRowsFit, ContentInOrder, CrossProductsFit, EitherWayTheSame, IntegerRowsFit, NoStepMisfits, NumbersBetweenFit, ProductsFit, QuotientsFit, RunsAgree, SizesBound, SizesLeast, StepsWithinRoom, SumsFit, TablesAgree, TablesStand, PivotsAgree, WholeRunsEnd};
ghost use Rattle.run_equivalence.specs.WorkedWhole.{WholeProgramsEnd};

/// A step on fractions that stand for whole numbers fits where those, and what is made of them, do.
pub fn steps_fit()
    ensures sums { SumsFit }
    ensures products { ProductsFit }
    ensures quotients { QuotientsFit }
{}

/// The numbers between the steps of a pivot are as wide as the limit at most.
pub fn numbers_between_fit()
    ensures lines { NumbersBetweenFit }
    ensures room { StepsWithinRoom }
    ensures cross_products { CrossProductsFit }
{}

/// A row is within its size, and within each bound that the size is not above.
pub fn row_sizes()
    ensures bound { SizesBound }
    ensures least { SizesLeast }
{}

/// What a row has in common may be found number after number.
pub fn content_in_order()
    ensures { ContentInOrder }
{}

/// From a table within the limit, of which each step of the pivot is, a pivot over fractions meets no
/// misfit, and is the pivot over whole numbers.
pub fn pivots_agree()
    ensures { PivotsAgree }
{}

/// Each table of the run is, as fractions, that of the run over fractions: with the same limit, and
/// without one.
pub fn tables_agree()
    ensures limited { TablesAgree }
    ensures unlimited { TablesStand }
{}

/// The bounds for numbers of 128 and of 64 bits.
pub fn bounds_in_use()
    ensures { BoundsInUse }
{}

/// A run that is not given up ends as the run over fractions does, number for number and unit for
/// unit.
pub fn runs_agree()
    ensures { RunsAgree }
{}

/// Where a run is not given up, no step of the run over fractions misfits.
pub fn no_step_misfits()
    ensures { NoStepMisfits }
{}

/// Some limit is enough: with it the run ends with an optimum or a direction.
pub fn whole_runs_end()
    ensures { WholeRunsEnd }
{}

/// The definitions compute how the worked programs end.
pub fn whole_programs_end()
    ensures { WholeProgramsEnd }
{}

/// Tried first, with the run over fractions where it is given up, it is the run over fractions.
pub fn either_way_the_same()
    ensures { EitherWayTheSame }
{}

/// The rows that a pivot mixes are within the same bounds, and what it leaves is within the limit.
pub fn integer_rows_fit()
    ensures mixed { IntegerRowsFit }
    ensures eliminated { EliminatedRowsFit }
{}
