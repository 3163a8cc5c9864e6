//! The quote between a price at which an order raises the surplus and a worse one at which it does
//! not.
ghost use Rattle.std.specs.Prelude.{◌≡◌, ◌≤◌, ◌^◌, ℕ, IfOk};
ghost use Rattle.option_quotes.specs.Ends.{AreEnds, IsProbing};
ghost use Rattle.option_quotes.specs.Probes.{first_unmarked, gap, probe_outcome, probes_between};
ghost use Rattle.option_quotes.specs.Quotes.{IsQuote, IsShown, unmarked_of};

use crate::probes::{Probing, is_optimal, is_raised};
use crate::quotes::Quoted;
use cert_check::Outcome;
use clearing::ClearRoom;
use std::alloc::{AllocError, Global};

/// A price and the outcome at it.
#[derive(Debug, Drop)]
pub(crate) struct Probed {
    pub(crate) price: u64,
    pub(crate) outcome: Outcome,
}

/// A price that raises the surplus, and a worse one for a match, which does not.
#[derive(Debug, Drop)]
pub(crate) struct Ends {
    pub(crate) raising: Probed,
    pub(crate) other: Probed,
}

/// Halves the gap between the ends until they are next to each other.
pub(crate) fn between(
    alloc: Global,
    probing: &Probing,
    base: Outcome,
    mut ends: Ends,
    room: &mut ClearRoom,
) -> Result<Quoted, AllocError>
    requires probing { IsProbing probing.now }
    requires base { IsShown probing.now.batch.now probing.now.limit base }
    requires ends { let p = probing.now in AreEnds p.batch.now p.order p.limit base ends }
    ensures quote { let p = probing.now in IfOk result (IsQuote p.batch.now p.order p.limit) }
    ensures unmarked { let p = probing.now in
        let a = ends.raising.price in let b = ends.other.price in
        IfOk result (λ quoted. (halvings : ℕ) → gap a b ≤ 2 ^ halvings
        → unmarked_of quoted ≡ first_unmarked
        (probes_between (probe_outcome p.batch.now p.order p.limit) base halvings a b)) }
{
    while ends.raising.price.abs_diff(ends.other.price) > 1 {
        let price = (ends.raising.price + ends.other.price) / 2;
        let outcome = probing.probe(alloc, price, room)?;
        if !is_optimal(&outcome) {
            return Ok(Quoted::Unmarked {
                probe: Some(price),
                outcome,
            });
        }
        if is_raised(&base, &outcome) {
            ends.raising = Probed { price, outcome };
        } else {
            ends.other = Probed { price, outcome };
        }
    }
    let Ends { raising, other } = ends;
    Ok(Quoted::At {
        price: raising.price,
        raising: raising.outcome,
        beside: Some(other.outcome),
        base,
    })
}
