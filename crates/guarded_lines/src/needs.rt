// What the positions of an account demand of its balance.
ghost use Rattle.std.specs.Prelude.{◌≡◌, IfOk};
ghost use Rattle.guarded_lines.specs.Needs.{IsDemandOf, need_as, need_in, liability_or_need};
ghost use Rattle.portfolio_margin.specs.Need.{demand_word, liability_or_word};

use crate::margins::margin_in;
use exchange_core::Exchange;
use portfolio_margin::{LeastMargin, Needed, need};
use proposal_text::Need;
use std::alloc::{AllocError, Global};

// The units of work of each margin that a withdrawal asks for.
const MARGIN_BUDGET: u32 = 2_000;

// What margins need, by its name here.
fn need_as(needed: Needed) -> Need
    ensures { result ≡ need_as needed }
{
    match needed {
        Needed::Amount(amount) => Need::Amount { amount },
        Needed::Unbounded => Need::Unbounded,
        Needed::Wide => Need::Wide,
        Needed::Budget => Need::Budget,
        Needed::Sum => Need::Sum,
    }
}

// The word of a margin that is not least.
fn word_of(margin: &LeastMargin) -> Option<Need>
    ensures { result ≡ demand_word (liability_or_need (liability_or_word margin.now)) }
{
    match margin {
        LeastMargin::Least { .. } => None,
        LeastMargin::Unbounded { .. } => Some(Need::Unbounded),
        LeastMargin::Wide { .. } => Some(Need::Wide),
        LeastMargin::Budget => Some(Need::Budget),
    }
}

// What a market demands of an account: a margin that is least with its number of positions, or else
// a word.
fn demand(
    alloc: Global,
    exchange: &Exchange,
    account: u32,
    market: u32,
) -> Result<Result<(LeastMargin, u32), Need>, AllocError>
    ensures { IfOk result (IsDemandOf exchange.now account market) }
{
    let Some((margin, count)) = margin_in(alloc, exchange, account, market, MARGIN_BUDGET)? else {
        return Ok(Err(Need::Positions));
    };
    match word_of(&margin) {
        Some(word) => Ok(Err(word)),
        None => Ok(Ok((margin, count))),
    }
}

/// What the positions of an account demand of its balance: the markets in which it has some are
/// taken in rising number, and the first in which they are more than 256, or whose margin is not
/// least, decides; else the margins' need. The only error is want of memory.
pub(crate) fn need_of(alloc: Global, exchange: &Exchange, account: u32) -> Result<Need, AllocError>
    ensures { IfOk result (λ need. need ≡ need_in exchange.now account) }
{
    let markets = exchange.held_markets(account)?;
    let mut margins = Vec::new(alloc);
    for market in markets.iter() {
        match demand(alloc, exchange, account, *market)? {
            Ok(counted) => margins.push(counted)?,
            Err(word) => return Ok(word),
        }
    }
    Ok(need_as(need(&margins)))
}
