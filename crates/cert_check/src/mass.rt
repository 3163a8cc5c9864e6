//! The test that weighted states are a measure.

ghost use Rattle.std.specs.Prelude.{◌≡◌, map, true, false};
ghost use Rattle.exact_num.specs.Fits.{meaning};
ghost use Rattle.frac.specs.Range.{limit};
ghost use Rattle.frac.specs.Value.{fraction_of};
ghost use Rattle.clearing_model.specs.Certificate.{HasUnitMass};
ghost use Rattle.cert_check.specs.Points.{point_of};
ghost use Rattle.cert_check.specs.MeasureSums.{add_mass, are_weights, has_unit_mass, is_weight, mass_of};

use crate::measures::{Measure, Weighted};
use exact_num::{Exact, Wide, plus_product};
use frac::{Frac128, whole};

/// Whether no weight is below 0 and the sum of `weight * t` is 1: true shows that it is so, and
/// false that it is not. `Wide` comes exactly where a step of the sum does not fit and no weight is
/// below 0. Takes no memory.
pub fn is_measure(m: &Measure) -> Result<bool, Wide>
    ensures steps { result ≡ has_unit_mass limit (map point_of m.now.points) }
    ensures holds { result ≡ Ok true → HasUnitMass (map point_of m.now.points) }
    ensures fails { result ≡ Ok false → ¬ (HasUnitMass (map point_of m.now.points)) }
{
    let points = m.points.as_slice();
    if !are_weights(points) {
        return Ok(false);
    }
    let sum = mass(points)?;
    Ok(sum == Frac128::one())
}

// Whether no weight is below 0.
fn are_weights(points: &[Weighted]) -> bool
    ensures { result ≡ are_weights (map point_of points.now) }
{
    for point in points {
        if !is_weight(point) {
            return false;
        }
    }
    true
}

// The sum of weight times t.
fn mass(points: &[Weighted]) -> Result<Frac128, Wide>
    ensures { meaning fraction_of result ≡ mass_of limit (map point_of points.now) }
{
    let mut total = Frac128::zero();
    for point in points {
        total = add_mass(total, point)?;
    }
    Ok(total)
}

// Whether the weight is not below 0.
fn is_weight(point: &Weighted) -> bool
    ensures { result ≡ is_weight (point_of point.now) }
{
    point.weight.sign() >= 0
}

// The total and weight times t of a point.
fn add_mass(total: Frac128, point: &Weighted) -> Result<Frac128, Wide>
    ensures { meaning fraction_of result ≡ add_mass limit (fraction_of total) (point_of point.now) }
{
    plus_product(total, point.weight, whole(point.state.entries[0]))
}
