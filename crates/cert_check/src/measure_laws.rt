//! What the checks of a measure show: the contracts of functions that do nothing.

ghost use Rattle.cert_check.specs.MeasureLaws.{BoundsAreExact, MassesAreExact, NoCoverIsAboveTheBound, PricesAreExact};

/// In weights that pass none is below 0 and the sum of `weight * t` is 1; in weights that do not
/// pass one is, or the sum is another.
pub fn masses_are_exact()
    ensures { MassesAreExact }
{}

/// A price is the model's; a weight may be below 0.
pub fn prices_are_exact()
    ensures { PricesAreExact }
{}

/// A bound is what the measure proves, and nothing else is; a weight may be below 0.
pub fn bounds_are_exact()
    ensures { BoundsAreExact }
{}

/// The bound of a measure is at least each surplus that fractional fills cover (weak duality).
pub fn no_cover_is_above_the_bound()
    ensures { NoCoverIsAboveTheBound }
{}
