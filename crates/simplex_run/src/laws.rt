//! What the definition of the run implies.
ghost use Rattle.simplex_run.specs.Choose.{UnitsSuffice};
ghost use Rattle.simplex_run.specs.Limits.{RunsEnd, SameWithGreaterLimit};
ghost use Rattle.simplex_run.specs.Optimum.{EndsAreAsSaid};
ghost use Rattle.simplex_run.specs.Tableau.{TablesAreFeasible, PivotsAreByBlandsRule};
ghost use Rattle.simplex_run.specs.Pivots.{BasicsDiffer};
ghost use Rattle.simplex_run.specs.Units.{UnitsAreCounted};
ghost use Rattle.simplex_run.specs.Worked.{WorkedProgramsEnd};

/// Where a run ends with an optimum, that is feasible and has a feasible dual of the same value;
/// where it ends with a direction, the objective rises along it without an end. Whatever the limit.
/// (Chvatal, Linear Programming, chapter 5.)
pub fn runs_end_as_said()
    ensures { EndsAreAsSaid }
{}

/// A run spends a unit a pivot, the last one too, and stops for want of units only where none is
/// left.
pub fn units_are_counted()
    ensures { UnitsAreCounted }
{}

/// Each table of a run, read as a tableau over the rationals, is feasible, and has the solutions of
/// the first one and on these its objective.
pub fn tables_are_feasible()
    ensures { TablesAreFeasible }
{}

/// And each pivot is a pivot of the simplex method by Bland's rule: the first column whose objective
/// entry is below 0 enters, and of the rows of the least ratio that of the smallest basic variable
/// leaves. (Chvatal, Linear Programming, chapters 2 and 3.)
pub fn pivots_are_by_blands_rule()
    ensures { PivotsAreByBlandsRule }
{}

/// The tables of a run without a limit have pairwise different sets of basic variables: Bland's
/// rule does not cycle. (Chvatal, Linear Programming, chapter 3.)
pub fn basics_differ()
    ensures { BasicsDiffer }
{}

/// A run that ends for want of units had fewer than there are ways to choose its basic variables.
pub fn units_suffice()
    ensures { UnitsSuffice }
{}

/// Without a limit each run ends with an optimum or a direction: some limit is enough.
pub fn runs_end()
    ensures { RunsEnd }
{}

/// A run without a misfit is the same with each greater limit.
pub fn same_with_greater_limit()
    ensures { SameWithGreaterLimit }
{}

/// The definitions compute how the runs of the worked programs end.
pub fn worked_programs_end()
    ensures { WorkedProgramsEnd }
{}
