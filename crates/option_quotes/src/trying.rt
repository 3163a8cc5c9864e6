//! What a clear would tell of a further order.
ghost use Rattle.std.specs.Prelude.{◌≡◌, ◌≤◌, IfOk};
ghost use Rattle.form.specs.declared.limits.TheConstants.{MAX_BUDGET, MAX_PRICE, MAX_QUANTITY};
ghost use Rattle.market_laws.specs.Limits.{at_price};
ghost use Rattle.option_quotes.specs.Implied.{asked};
ghost use Rattle.option_quotes.specs.Thresholds.{MayBeQuoted};
ghost use Rattle.option_quotes.specs.Tried.{IsTried, fill_behind, tried_of};

use crate::implied::asked;
use crate::probes::Probing;
use cert_check::Outcome;
use form::{Batch, Form, Side};
use frac::{Frac128, whole};
use std::alloc::{AllocError, Global};

/// What a clear would tell of a further order.
#[derive(Debug, Drop)]
pub struct Tried {
    /// How much of the order it would fill.
    pub fill: Frac128,
    /// The outcome of the batch with the order at its end.
    pub outcome: Outcome,
}

// The fill of the order behind those of the batch.
fn fill_behind(batch: &Batch, outcome: &Outcome) -> Frac128
    ensures { result ≡ fill_behind batch.now outcome.now }
{
    match outcome.fills.as_slice().get(batch.orders.as_slice().len()) {
        Some(fill) => *fill,
        None => whole(0),
    }
}

/// What a clear would tell of a further order for `quantity` bundles of the option at a price, if
/// the batch were cleared with the order at its end, with at most `limit` units of work. Nothing is
/// changed. The only error is want of memory.
pub fn try_order(
    alloc: Global,
    batch: &Batch,
    form: &Form,
    side: Side,
    quantity: u32,
    price: u64,
    limit: u32,
) -> Result<Tried, AllocError>
    requires batch { MayBeQuoted batch.now form.now }
    requires quantity { (1 ≤ quantity) × (quantity ≤ MAX_QUANTITY) }
    requires price { price ≤ MAX_PRICE }
    requires limit { (1 ≤ limit) × (limit ≤ MAX_BUDGET) }

    // The outcome is that of a clear of the batch with the order at its end, and the fill is what it
    // fills of this order.
    ensures defined { IfOk result (λ tried.
        tried ≡ tried_of batch.now form.now side quantity price limit) }

    // It is judged: its fills cover its surplus, which is not below 0, and that of the order is from
    // 0 to its quantity.
    ensures filled { IfOk result (λ tried.
        IsTried batch.now (at_price (asked form.now side quantity) price) tried) }
{
    let probing = Probing {
        batch,
        order: asked(form, side, quantity),
        limit,
    };
    let mut room = probing.room(alloc)?;
    let outcome = probing.probe(alloc, price, &mut room)?;
    Ok(Tried {
        fill: fill_behind(batch, &outcome),
        outcome,
    })
}
