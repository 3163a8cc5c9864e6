//! The price from which on a further order raises the surplus, found along lines in a few clears.
ghost use Rattle.std.specs.Prelude.{◌≡◌, ◌≤◌, IfOk, true};
ghost use Rattle.form.specs.declared.limits.TheConstants.{MAX_BUDGET, MAX_QUANTITY};
ghost use Rattle.form.specs.Limits.{IsWithinLimits};
ghost use Rattle.form.specs.declared.orders.Side.TheVariants as Side;
ghost use Rattle.option_quotes.specs.Ends.{IsBetter, IsProbed, IsProbing};
ghost use Rattle.option_quotes.specs.Implied.{asked, landed_at, prices_for, prices_of, side_price, walked_all};
ghost use Rattle.option_quotes.specs.Probes.{is_raised, probe_outcome, with_order};
ghost use Rattle.option_quotes.specs.Quotes.{IsShown};
ghost use Rattle.option_quotes.specs.Shown.{EndsAsProbed, IfMarked, IsImplied};
ghost use Rattle.option_quotes.specs.Thresholds.{MayBeQuoted};

use crate::along::{next_along, next_better};
use crate::ends::{Ends, Probed};
use crate::prices::{MarketPrices, SidePrice};
use crate::probes::{Probing, best_price, further, is_optimal, is_raised, outcome_in, worst_price};
use cert_check::Outcome;
use clearing::ClearRoom;
use form::{Batch, Form, Order, Side};
use std::alloc::{AllocError, Global};

// The probes of a side behind that at the best price: at most 60 in all.
const MOST_WALKED: u32 = 59;

/// The price where the first one along the line does not raise: the one beside it.
fn landed(
    alloc: Global,
    probing: &Probing,
    ends: Ends,
    left: u32,
    room: &mut ClearRoom,
) -> Result<SidePrice, AllocError>
    requires probing { IsProbing probing.now }
    requires raising { let p = probing.now in IsProbed p.batch.now p.order p.limit ends.raising }
    requires other { let p = probing.now in IsProbed p.batch.now p.order p.limit ends.other }
    requires better { IsBetter probing.now.order.side ends.other.price ends.raising.price }
    ensures { let p = probing.now in IfOk result (λ found. found
        ≡ landed_at (probe_outcome p.batch.now p.order p.limit) p.order.side left
        ends.raising.price ends.other.price) }
{
    let Ends { raising, other } = ends;
    let price = next_better(probing.order.side, other.price);
    if price == raising.price {
        return Ok(SidePrice::At {
            price,
            raising: raising.outcome,
            beside: Some(other.outcome),
        });
    }
    if left == 0 {
        return Ok(SidePrice::Spent);
    }
    let outcome = probing.probe(alloc, price, room)?;
    if !is_optimal(&outcome) {
        return Ok(SidePrice::Unmarked { price, outcome });
    }
    Ok(SidePrice::At {
        price,
        raising: outcome,
        beside: Some(other.outcome),
    })
}

/// The price from one that raises on: along the line through its outcome to the next, until one
/// does not raise.
fn walked(
    alloc: Global,
    probing: &Probing,
    base: &Outcome,
    mut raising: Probed,
    room: &mut ClearRoom,
) -> Result<SidePrice, AllocError>
    requires probing { IsProbing probing.now }
    requires base { IsShown probing.now.batch.now probing.now.limit base.now }
    requires raising { let p = probing.now in IsProbed p.batch.now p.order p.limit raising }
    requires raised { is_raised base.now raising.outcome ≡ true }
    ensures { let p = probing.now in IfOk result (λ found. found
        ≡ walked_all (probe_outcome p.batch.now p.order p.limit) base.now p.order.side
        raising.price) }
{
    let mut left = MOST_WALKED;
    while raising.price != worst_price(probing.order.side) {
        if left == 0 {
            return Ok(SidePrice::Spent);
        }
        left -= 1;
        let price = next_along(base, probing.order.side, &raising);
        let outcome = probing.probe(alloc, price, room)?;
        if !is_optimal(&outcome) {
            return Ok(SidePrice::Unmarked { price, outcome });
        }
        let probed = Probed { price, outcome };
        if !is_raised(base, &probed.outcome) {
            let ends = Ends {
                raising,
                other: probed,
            };
            return landed(alloc, probing, ends, left, room);
        }
        raising = probed;
    }
    Ok(SidePrice::At {
        price: raising.price,
        raising: raising.outcome,
        beside: None,
    })
}

/// The price of one side, where the outcome of the batch is marked optimal: from the best price on.
fn side_price(
    alloc: Global,
    probing: &Probing,
    base: &Outcome,
    room: &mut ClearRoom,
) -> Result<SidePrice, AllocError>
    requires probing { IsProbing probing.now }
    requires base { IsShown probing.now.batch.now probing.now.limit base.now }
    ensures { let p = probing.now in
        IfOk result (λ found. found ≡ side_price p.batch.now p.order p.limit) }
{
    let price = best_price(probing.order.side);
    let outcome = probing.probe(alloc, price, room)?;
    if !is_optimal(&outcome) {
        return Ok(SidePrice::Unmarked { price, outcome });
    }
    if !is_raised(base, &outcome) {
        return Ok(SidePrice::Never { extreme: outcome });
    }
    let best = Probed { price, outcome };
    walked(alloc, probing, base, best, room)
}

/// The further order of so many bundles.
pub(crate) fn asked(form: &Form, side: Side, quantity: u32) -> Order
    ensures { result ≡ asked form.now side quantity }
{
    Order {
        quantity,
        ..further(form, side)
    }
}

/// The prices of the further buy, and of a further sell in its place, cleared in that room.
fn prices_in(
    alloc: Global,
    buying: &Probing,
    sell: Order,
    room: &mut ClearRoom,
) -> Result<MarketPrices, AllocError>
    requires batch { IsWithinLimits buying.now.batch.now }
    requires buying { IsProbing buying.now }
    requires sell { IsWithinLimits (with_order buying.now.batch.now sell) }
    ensures { let p = buying.now in
        IfOk result (λ prices. prices ≡ prices_for p.batch.now p.order sell p.limit) }
{
    let base = outcome_in(alloc, buying.batch, buying.limit, room)?;
    if !is_optimal(&base) {
        return Ok(MarketPrices::Unmarked { base });
    }
    let selling = Probing {
        batch: buying.batch,
        order: sell,
        limit: buying.limit,
    };
    let ask = side_price(alloc, buying, &base, room)?;
    let bid = side_price(alloc, &selling, &base, room)?;
    Ok(MarketPrices::Marked { base, ask, bid })
}

/// The whole prices at which a further order for `quantity` bundles of the option raises the
/// greatest surplus of the batch: the least for a buy, which the market asks, and the greatest for
/// a sell, which it bids. The greatest surplus is convex in the price of the order, with its fill
/// as the slope, so each clear that raises it tells the next price: where the line through it is at
/// the surplus of the batch. The batch itself is cleared once, and with the order at most 60 times
/// a side, each with at most `limit` units of work, in one room. The only error is want of memory.
pub fn implied_prices(
    alloc: Global,
    batch: &Batch,
    form: &Form,
    quantity: u32,
    limit: u32,
) -> Result<MarketPrices, AllocError>
    requires batch { MayBeQuoted batch.now form.now }
    requires quantity { (1 ≤ quantity) × (quantity ≤ MAX_QUANTITY) }
    requires limit { (1 ≤ limit) × (limit ≤ MAX_BUDGET) }

    // The prices are those that the definition gives by the probes.
    ensures defined { IfOk result (λ prices. prices ≡ prices_of batch.now form.now quantity limit) }

    // A buy at a whole price raises the surplus exactly where its price is at least `ask`, as the
    // outcomes at it and at the next worse price show, each judged yes and marked optimal; or at no
    // price; or an outcome is not marked.
    ensures ask { IfOk result (λ prices. IfMarked prices (λ base ask bid.
        IsImplied batch.now (asked form.now Side.Buy quantity) limit base ask)) }

    // So does a sell where its price is at most `bid`.
    ensures bid { IfOk result (λ prices. IfMarked prices (λ base ask bid.
        IsImplied batch.now (asked form.now Side.Sell quantity) limit base bid)) }

    // The batch is cleared with the order at most 60 times a side: each outcome is marked optimal,
    // or the first that is not is told, or all 60 are and one more was wanted.
    ensures probed { IfOk result (λ prices. IfMarked prices (λ base ask bid.
        EndsAsProbed batch.now (asked form.now Side.Buy quantity) limit ask
        × EndsAsProbed batch.now (asked form.now Side.Sell quantity) limit bid)) }
{
    let buying = Probing {
        batch,
        order: asked(form, Side::Buy, quantity),
        limit,
    };
    let sell = asked(form, Side::Sell, quantity);
    let mut room = buying.room(alloc)?;
    prices_in(alloc, &buying, sell, &mut room)
}
