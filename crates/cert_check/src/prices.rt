//! The price that a measure gives a bundle.

ghost use Rattle.std.specs.Prelude.{◌≡◌, IfOk, map};
ghost use Rattle.exact_num.specs.Fits.{meaning};
ghost use Rattle.frac.specs.Range.{limit};
ghost use Rattle.frac.specs.Value.{fraction_of};
ghost use Rattle.form.specs.Payoff.{IsOnCount, bundle_legs};
ghost use Rattle.cert_check.specs.MeasureLaws.{IsPrice};
ghost use Rattle.cert_check.specs.Points.{FitsStates, point_of, points_of};
ghost use Rattle.cert_check.specs.MeasureSums.{add_price, price_of};

use crate::measures::{Measure, Weighted};
use exact_num::{Exact, Wide, plus_product};
use form::{Bundle, bundle_payoff};
use frac::{Frac128, whole};

/// The price of the bundle: the sum of `weight * payoff`. Each state has as many entries as the
/// forms of its legs. `Wide` comes exactly where a step does not fit. Takes no memory.
pub fn price_of(bundle: &Bundle, m: &Measure) -> Result<Frac128, Wide>
    requires { FitsStates bundle.now m.now.points }
    ensures steps { meaning fraction_of result
        ≡ price_of limit (bundle_legs bundle.now) (points_of m.now) }
    ensures exact { IfOk result (λ price.
        IsPrice (bundle_legs bundle.now) (points_of m.now) (fraction_of price)) }
{
    sum(bundle, m.points.as_slice())
}

// The sum over these points.
fn sum(bundle: &Bundle, points: &[Weighted]) -> Result<Frac128, Wide>
    requires { FitsStates bundle.now points.now }
    ensures { meaning fraction_of result
        ≡ price_of limit (bundle_legs bundle.now) (map point_of points.now) }
{
    let mut total = Frac128::zero();
    for point in points {
        total = add_price(total, bundle, point)?;
    }
    Ok(total)
}

// The total and weight times payoff at one point.
fn add_price(total: Frac128, bundle: &Bundle, point: &Weighted) -> Result<Frac128, Wide>
    requires { IsOnCount point.now.state.count bundle.now }
    ensures { meaning fraction_of result
        ≡ add_price limit (bundle_legs bundle.now) (fraction_of total) (point_of point.now) }
{
    let pays = bundle_payoff(bundle, &point.state)?;
    plus_product(total, point.weight, whole(pays))
}
