//! Laws over the definitions: each is the contract of a function that does nothing.
ghost use Rattle.master_program.specs.OptimumLaws.{CoveredIsGreatest, EmptyPointsDrop, LineReadingsAreGreatest, LineSolvesAreGreatest, MasterCertifies, NoRunIsUnbounded, NoSolveRises, ReadingsAreCertified, RunsAreCertified, SolvesAreCertified};
ghost use Rattle.master_program.specs.Verdict.{CoveredReadingsAreNotRefused, LineReadingsAreNotRefused, SumsDecide, SumsThatFitPass};

/// An optimum of the master program over any states certifies itself at them: its fills are
/// allowed, its value is the premium less the liability, which is enough at each of the states, and
/// its dual is a measure whose bound is no greater. (Duality of linear programs: Chvatal, Linear
/// Programming, chapter 5.)
pub fn master_certifies()
    ensures { MasterCertifies }
{}

/// Points of weight 0 may be left out of a measure, and out of one that proves a surplus.
pub fn empty_points_drop()
    ensures { EmptyPointsDrop }
{}

/// What is read off an optimum of the master program is certified at its states.
pub fn readings_are_certified()
    ensures { ReadingsAreCertified }
{}

/// What is read off a run of the master program is certified at its states, whatever the limits and
/// the units.
pub fn runs_are_certified()
    ensures { RunsAreCertified }
{}

/// No run of the master program ends unbounded.
pub fn no_run_is_unbounded()
    ensures { NoRunIsUnbounded }
{}

/// Where the fills cover the surplus of a certified reading, its measure proves it, and no fills
/// cover more.
pub fn covered_is_greatest()
    ensures { CoveredIsGreatest }
{}

/// On one underlying, what is read off an optimum over the states of the line is covered at every
/// price and in the slope beyond, its measure proves its surplus, and no fills cover more.
pub fn line_readings_are_greatest()
    ensures { LineReadingsAreGreatest }
{}

/// What a whole solve of a master program ends with is certified at its states.
pub fn solves_are_certified()
    ensures { SolvesAreCertified }
{}

/// Over the states of the line it is covered at every price, and the greatest.
pub fn line_solves_are_greatest()
    ensures { LineSolvesAreGreatest }
{}

/// No solve ends with an objective that rises without an end.
pub fn no_solve_rises()
    ensures { NoSolveRises }
{}

/// The verdict on an outcome that claims a certified and covered reading is yes, or a step of its
/// sums does not fit: each of its conditions is met.
pub fn covered_readings_are_not_refused()
    ensures { CoveredReadingsAreNotRefused }
{}

/// So it is on one underlying, of an outcome that claims what is read off over the states of the
/// line.
pub fn line_readings_are_not_refused()
    ensures { LineReadingsAreNotRefused }
{}

/// Where no condition of the verdict refuses an outcome, the sums of its cover, measure and bound
/// one after another are those of the verdict,
pub fn sums_decide()
    ensures { SumsDecide }
{}

/// so that the verdict is yes where each of them fits.
pub fn sums_that_fit_pass()
    ensures { SumsThatFitPass }
{}
