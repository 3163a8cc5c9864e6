//! What stands in a space.
ghost use Rattle.std.specs.Prelude.{◌≡◌};

use fraction_tableau::Entering;

/// What stands in a space.
#[derive(Clone, Copy)]
pub enum Stage {
    /// No program.
    Empty,
    /// A program that is being given.
    Given,
    /// The optimum of a run over fractions.
    Optimal,
    /// The end of a run over fractions where nothing limits this column.
    Unbounded { column: Entering },
    /// The optimum of a run over rows of whole numbers.
    WholeOptimal,
    /// The end of a run over rows of whole numbers where nothing limits this column.
    WholeUnbounded { column: Entering },
    /// A run that stopped.
    Stopped,
}

impl Stage {
    ghost use Rattle.simplex.specs.Attempts.{is_optimum as is_optimum_of};

    /// Whether an optimum stands there.
    pub fn is_optimum(self) -> bool
        ensures { result ≡ is_optimum_of self }
    {
        match self {
            Stage::Optimal | Stage::WholeOptimal => true,
            Stage::Empty
            | Stage::Given
            | Stage::Unbounded { .. }
            | Stage::WholeUnbounded { .. }
            | Stage::Stopped => false,
        }
    }
}
