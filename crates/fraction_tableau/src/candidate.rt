//! The rows that limit the entering variable.
ghost use Rattle.std.specs.Prelude.{◌≡◌};
ghost use Rattle.std.specs.Option.{option_map};
ghost use Rattle.simplex_run.specs.Choice.{lesser as lesser_of};
ghost use Rattle.fraction_tableau.specs.Candidates.{as_ratio, with_ratio as with_ratio_of};

use exact_num::Exact;
use std::cmp::Ordering;

/// A row that limits the entering variable: its place, its basic variable, and its ratio.
#[derive(Clone, Copy)]
pub struct Candidate<N> {
    pub place: usize,
    pub basic: usize,
    pub ratio: N,
}

impl<N: Exact> Candidate<N> {
    /// The one of less ratio; of equal ones that of the smaller basic variable.
    fn lesser(self, other: Candidate<N>) -> Candidate<N>
        ensures { as_ratio N.fraction result
            ≡ lesser_of (as_ratio N.fraction self) (as_ratio N.fraction other) }
    {
        match self.ratio.cmp(&other.ratio) {
            Ordering::Less => self,
            Ordering::Equal => {
                if self.basic < other.basic {
                    self
                } else {
                    other
                }
            }
            Ordering::Greater => other,
        }
    }
}

/// The best so far, and the row at `place` where it has a ratio.
pub fn with_ratio<N: Exact>(
    best: Option<Candidate<N>>,
    place: usize,
    basic: usize,
    ratio: Option<N>,
) -> Option<Candidate<N>>
    ensures { option_map (as_ratio N.fraction) result
        ≡ with_ratio_of (option_map (as_ratio N.fraction) best)
        place basic (option_map N.fraction ratio) }
{
    let Some(ratio) = ratio else { return best };
    let next = Candidate {
        place,
        basic,
        ratio,
    };
    match best {
        None => Some(next),
        Some(best) => Some(best.lesser(next)),
    }
}
