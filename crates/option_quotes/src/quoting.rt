//! The quote, probe by probe.
ghost use Rattle.std.specs.Prelude.{◌≡◌, ◌≤◌, IfOk, true};
ghost use Rattle.form.specs.declared.limits.TheConstants.{MAX_BUDGET};
ghost use Rattle.form.specs.Limits.{IsWithinLimits};
ghost use Rattle.option_quotes.specs.ByProbes.{quoted_of};
ghost use Rattle.option_quotes.specs.Ends.{IsProbed, IsProbing};
ghost use Rattle.option_quotes.specs.Probes.{best_price, first_unmarked, further, is_raised, probe_outcome, probes, probes_from_best, probes_from_worst};
ghost use Rattle.option_quotes.specs.Quotes.{AreShown, IfAt, IfNever, IsNever, IsQuote, IsShown, RaisesFrom, unmarked_of};
ghost use Rattle.option_quotes.specs.Thresholds.{MayBeQuoted};

use crate::ends::{Ends, Probed, between};
use crate::probes::{Probing, best_price, further, is_optimal, is_raised, outcome_in, worst_price};
use crate::quotes::Quoted;
use cert_check::Outcome;
use clearing::ClearRoom;
use form::{Batch, Form, Side};
use std::alloc::{AllocError, Global};

/// The quote where the best price raises the surplus: from the worst price on.
fn from_worst(
    alloc: Global,
    probing: &Probing,
    base: Outcome,
    best: Probed,
    room: &mut ClearRoom,
) -> Result<Quoted, AllocError>
    requires probing { IsProbing probing.now }
    requires base { IsShown probing.now.batch.now probing.now.limit base }
    requires best { let p = probing.now in IsProbed p.batch.now p.order p.limit best }
    requires price { best.price ≡ best_price probing.now.order.side }
    requires raised { is_raised base best.outcome ≡ true }
    ensures quote { let p = probing.now in IfOk result (IsQuote p.batch.now p.order p.limit) }
    ensures unmarked { let p = probing.now in IfOk result (λ quoted.
        unmarked_of quoted ≡ first_unmarked
        (probes_from_worst (probe_outcome p.batch.now p.order p.limit) base p.order.side)) }
{
    let price = worst_price(probing.order.side);
    let outcome = probing.probe(alloc, price, room)?;
    if !is_optimal(&outcome) {
        return Ok(Quoted::Unmarked {
            probe: Some(price),
            outcome,
        });
    }
    if is_raised(&base, &outcome) {
        return Ok(Quoted::At {
            price,
            raising: outcome,
            beside: None,
            base,
        });
    }
    let ends = Ends {
        raising: best,
        other: Probed { price, outcome },
    };
    between(alloc, probing, base, ends, room)
}

/// The quote where the base is marked optimal: from the best price on.
fn from_best(
    alloc: Global,
    probing: &Probing,
    base: Outcome,
    room: &mut ClearRoom,
) -> Result<Quoted, AllocError>
    requires probing { IsProbing probing.now }
    requires base { IsShown probing.now.batch.now probing.now.limit base }
    ensures quote { let p = probing.now in IfOk result (IsQuote p.batch.now p.order p.limit) }
    ensures unmarked { let p = probing.now in IfOk result (λ quoted.
        unmarked_of quoted ≡ first_unmarked
        (probes_from_best (probe_outcome p.batch.now p.order p.limit) base p.order.side)) }
{
    let price = best_price(probing.order.side);
    let outcome = probing.probe(alloc, price, room)?;
    if !is_optimal(&outcome) {
        return Ok(Quoted::Unmarked {
            probe: Some(price),
            outcome,
        });
    }
    if !is_raised(&base, &outcome) {
        return Ok(Quoted::Never {
            extreme: outcome,
            base,
        });
    }
    let best = Probed { price, outcome };
    from_worst(alloc, probing, base, best, room)
}

/// The quote of the order, cleared in that room.
fn quote_in(alloc: Global, probing: &Probing, room: &mut ClearRoom) -> Result<Quoted, AllocError>
    requires batch { IsWithinLimits probing.now.batch.now }
    requires probing { IsProbing probing.now }
    ensures { let p = probing.now in
        IfOk result (λ quoted. quoted ≡ quoted_of p.batch.now p.order p.limit) }
{
    let base = outcome_in(alloc, probing.batch, probing.limit, room)?;
    if !is_optimal(&base) {
        return Ok(Quoted::Unmarked {
            probe: None,
            outcome: base,
        });
    }
    from_best(alloc, probing, base, room)
}

/// The whole price at which a further buy or sell of one bundle of the option raises the greatest
/// surplus of the batch: the least for a buy, the greatest for a sell. At most 43 batches are
/// cleared, each with at most `limit` units of work: the batch itself, and the batch with one order
/// more at the best price for a match, at the worst, and then at the middle of the gap between a
/// price that raises the surplus and one that does not. They are cleared in one room, which is
/// taken once; each takes its own lists before its first step. The only error is want of memory.
pub fn quote(
    alloc: Global,
    batch: &Batch,
    form: &Form,
    side: Side,
    limit: u32,
) -> Result<Quoted, AllocError>
    requires batch { MayBeQuoted batch.now form.now }
    requires limit { (1 ≤ limit) × (limit ≤ MAX_BUDGET) }

    // The quote is the one that the definition gives by the probes.
    ensures defined { IfOk result (λ quoted.
        quoted ≡ quoted_of batch.now (further form.now side) limit) }

    // A buy at a whole price raises the surplus exactly where its price is at least this one, a
    // sell where it is at most this.
    ensures raises { IfOk result (λ quoted. IfAt quoted (λ price raising beside base.
        RaisesFrom batch.now (further form.now side) base price)) }

    // The outcomes at this price and at the next worse one are those of the batch with the order,
    // each judged yes and marked optimal. None comes exactly where the price is the worst.
    ensures shown { IfOk result (λ quoted.
        IfAt quoted (AreShown batch.now (further form.now side) limit)) }

    // No whole price raises it.
    ensures never { IfOk result (λ quoted.
        IfNever quoted (IsNever batch.now (further form.now side) limit)) }

    // The first probe that is not marked optimal ends the quote.
    ensures unmarked { IfOk result (λ quoted.
        unmarked_of quoted ≡ first_unmarked (probes batch.now (further form.now side) limit)) }
{
    let probing = Probing {
        batch,
        order: further(form, side),
        limit,
    };
    let mut room = probing.room(alloc)?;
    quote_in(alloc, &probing, &mut room)
}
