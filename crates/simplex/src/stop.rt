//! Why a run stops.
ghost use Rattle.std.specs.Prelude.{◌≡◌};
ghost use Rattle.simplex.specs.declared.stop.SolveStop.TheVariants.{Memory};
ghost use Rattle.simplex.specs.Stops.{stop_of};

use exact_num::Wide;
use std::alloc::AllocError;

/// Why a run stopped.
#[derive(Clone, Copy, PartialEq, Eq, Debug)]
pub enum SolveStop {
    /// A step did not fit; `unit` is the number of units spent by then.
    Wide { unit: u32, wide: Wide },
    /// The run wants one unit more than the budget has.
    Budget,
    /// No memory was there for the table; no unit was spent.
    Memory,
}

/// Why a run over its table stopped.
#[derive(Clone, Copy, PartialEq, Eq, Debug)]
pub enum RunStop {
    Wide { unit: u32, wide: Wide },
    Budget,
}

impl From<AllocError> for SolveStop {
    ghost from_gives = { λ _ stop. stop ≡ Memory };

    fn from(_error: AllocError) -> SolveStop {
        SolveStop::Memory
    }
}

impl From<RunStop> for SolveStop {
    ghost from_gives = { λ stopped stop. stop ≡ stop_of stopped };

    fn from(stopped: RunStop) -> SolveStop {
        match stopped {
            RunStop::Wide { unit, wide } => SolveStop::Wide { unit, wide },
            RunStop::Budget => SolveStop::Budget,
        }
    }
}
