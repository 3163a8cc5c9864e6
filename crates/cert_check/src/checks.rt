//! The four tests of a verdict: surplus, cover, measure and bound.

ghost use Rattle.std.specs.Prelude.{◌≡◌, length};
ghost use Rattle.exact_num.specs.Fits.{meaning};
ghost use Rattle.frac.specs.Range.{limit};
ghost use Rattle.frac.specs.Value.{fraction_of};
ghost use Rattle.form.specs.Limits.{HasItsForms};
ghost use Rattle.line_cover.specs.Verdict.{line_verdict};
ghost use Rattle.cert_check.specs.Points.{IsOnStates, points_of};
ghost use Rattle.sign_tree.specs.Verdict.{tree_verdict};
ghost use Rattle.cert_check.specs.Conditions.{IsCoverOn};
ghost use Rattle.cert_check.specs.Tests.{HasSigns, add_premium, batch_covered, bound_holds, claim_holds, is_claimed, measure_holds, order_fills, premium_of};

use crate::bounds::bound;
use crate::mass::is_measure;
use crate::measures::Measure;
use crate::outcome::{Claim, Cover};
use exact_num::{Exact, Wide};
use form::{Batch, Order, add_for_side};
use frac::{Frac128, whole};
use line_cover::{LineVerdict, holds_on_line};
use sign_tree::{TreeVerdict, closes};

/// Whether the premium of the fills less the liability is the surplus, and that is not below 0.
/// `Wide` comes exactly where a step does not fit. Takes no memory.
pub fn surplus_holds(orders: &[Order], fills: &[Frac128], claim: &Claim) -> Result<bool, Wide>
    requires { length fills.now ≡ length orders.now }
    ensures { result ≡ claim_holds limit orders.now fills.now claim.now }
{
    let premium = premium(orders, fills)?;
    let left = premium.sub(claim.liability)?;
    Ok(is_claimed(claim.surplus, left))
}

// Whether the number is the surplus, and that is not below 0.
fn is_claimed(surplus: Frac128, left: Frac128) -> bool
    ensures { result ≡ is_claimed (fraction_of surplus) (fraction_of left) }
{
    left == surplus && surplus.sign() >= 0
}

// What buyers pay less what sellers get.
fn premium(orders: &[Order], fills: &[Frac128]) -> Result<Frac128, Wide>
    requires { length fills.now ≡ length orders.now }
    ensures { meaning fraction_of result ≡ premium_of limit (order_fills orders.now fills.now) }
{
    let mut total = Frac128::zero();
    for i in 0..orders.len() {
        let order = &orders[i];
        total = add_premium(total, order, fills[i])?;
    }
    Ok(total)
}

// The total and the premium of a fill.
fn add_premium(total: Frac128, order: &Order, fill: Frac128) -> Result<Frac128, Wide>
    ensures { meaning fraction_of result
        ≡ add_premium limit (fraction_of total) (order.now, fraction_of fill) }
{
    add_for_side(total, order.side, fill, whole(order.price.into()))
}

/// Whether the line or the tree shows that the liability is enough for the fills. `Wide` comes
/// exactly where a step does not fit before the cover fails. There are as many fills as orders, the
/// cover is one of the batch's underlyings, and for a tree there are as many signs as the orders
/// have legs, at most 1,024; what they held does not matter, and a line looks at none. Takes no
/// memory.
pub fn cover_holds(
    batch: &Batch,
    fills: &[Frac128],
    liability: &Frac128,
    cover: &Cover,
    signs: &mut [i8],
) -> Result<bool, Wide>
    requires forms { HasItsForms batch.now }
    requires fills { length fills.now ≡ length batch.now.orders }
    requires cover { IsCoverOn batch.now.underlyings cover.now }
    requires signs { HasSigns cover.now batch.now.orders (length signs.old) }
    ensures { result ≡ batch_covered limit batch.now fills.now liability.now cover.now }
{
    match cover {
        Cover::Line => of_line(holds_on_line(batch, fills, liability)),
        Cover::Tree(tree) => of_tree(closes(batch, fills, liability, tree, signs)),
    }
}

// Whether the line holds.
fn of_line(verdict: LineVerdict) -> Result<bool, Wide>
    ensures { verdict ≡ line_verdict result }
{
    match verdict {
        LineVerdict::Holds => Ok(true),
        LineVerdict::Fails => Ok(false),
        LineVerdict::Wide(wide) => Err(wide),
    }
}

// Whether the tree is closed.
fn of_tree(verdict: TreeVerdict) -> Result<bool, Wide>
    ensures { verdict ≡ tree_verdict result }
{
    match verdict {
        TreeVerdict::Closed => Ok(true),
        TreeVerdict::Open => Ok(false),
        TreeVerdict::Wide(wide) => Err(wide),
    }
}

/// Whether no weight of the measure is below 0 and the sum of `weight * t` is 1. `Wide` comes
/// exactly where a step of the sum does not fit and no weight is below 0. Takes no memory.
pub fn measure_holds(measure: &Measure) -> Result<bool, Wide>
    ensures { result ≡ measure_holds limit (points_of measure.now) }
{
    is_measure(measure)
}

/// Whether the bound of the measure is the surplus. Each state has as many entries as the forms.
/// `Wide` comes exactly where a step does not fit. Takes no memory.
pub fn bound_holds(batch: &Batch, measure: &Measure, surplus: &Frac128) -> Result<bool, Wide>
    requires forms { HasItsForms batch.now }
    requires states { IsOnStates batch.now.underlyings measure.now }
    ensures { result
        ≡ bound_holds limit batch.now.orders (points_of measure.now) (fraction_of surplus.now) }
{
    let bound = bound(batch, measure)?;
    Ok(bound == *surplus)
}
