// A clear where proposals are kept.
ghost use Rattle.std.specs.Prelude.{◌≡◌, ◌<◌, map, true, IfErr, IfOk, IfSome, Some};
ghost use Rattle.std.specs.Option.{option_map};
ghost use Rattle.clearing_model.specs.Certificate.{AreFractionFills};
ghost use Rattle.command_text.specs.Within.{IsBudget};
ghost use Rattle.command_text.specs.declared.command.Command.TheVariants as Command;
ghost use Rattle.exchange_core.specs.Failures.{unless_memory};
ghost use Rattle.exchange_core.specs.Refusals.{refusals};
ghost use Rattle.form.specs.Limits.{IsWithinLimits};
ghost use Rattle.frac.specs.Value.{fraction_of};
ghost use Rattle.order_book.specs.Book.{batch_of, is_trading, market_of};
ghost use Rattle.limits.specs.declared.TheConstants.{MAX_BATCHES};
ghost use Rattle.lists.specs.Refusals.{TellsFirst};
ghost use Rattle.proposal_lines.specs.Clears.{better_in, better_than, charge_effect, cleared_by};
ghost use Rattle.proposal_lines.specs.Proved.{AreProvedIn};
ghost use Rattle.proposal_lines.specs.ProposingState.{state_of};

use crate::judging::numbers_of;
use crate::kept_by_market::KeptByMarket;
use cert_check::Outcome;
use exchange_core::{Exchange, Failure, Reply};
use form::Batch;
use proposal_text::{ProposalReply, ServedReply};
use std::alloc::{AllocError, Global};

// Charges an outcome of the batch of a market, or what takes its place, where the run stopped and
// something is kept for just its orders. What is kept for the market is let go of; so it may be
// where memory is wanting.
fn charge(
    alloc: Global,
    exchange: &mut Exchange,
    kept: &mut KeptByMarket,
    market: u32,
    batch: Batch,
    outcome: Outcome,
) -> Result<ServedReply, AllocError>
    requires open { is_trading exchange.old.book market ≡ true }
    requires few { exchange.old.book.finished < MAX_BATCHES }
    requires batch { option_map batch_of (market_of exchange.old.book market) ≡ Some batch }
    requires within { IsWithinLimits batch }
    requires fills { AreFractionFills batch.orders (map fraction_of outcome.fills) }
    requires proved { AreProvedIn exchange.old.book kept.old }
    ensures charged { IfOk result (λ reply. (reply, state_of exchange.new kept.new)
        ≡ charge_effect (state_of exchange.old kept.old) market outcome
        (better_than (state_of exchange.old kept.old) market outcome)) }
    ensures proved { AreProvedIn exchange.new.book kept.new }
{
    let numbers = numbers_of(alloc, batch.orders.as_slice())?;
    match kept.take_bounded(alloc, market, &numbers, outcome) {
        Ok(better) => {
            let number = exchange.clear_as(market, &batch, &better.proposal.fills)?;
            Ok(ServedReply::Told(ProposalReply::Bounded {
                number,
                market,
                batch,
                outcome: better,
            }))
        }
        Err(outcome) => {
            let number = exchange.clear_as(market, &batch, &outcome.fills)?;
            Ok(ServedReply::Plain(Reply::Cleared {
                number,
                market,
                batch,
                outcome,
            }))
        }
    }
}

// Clears a market within a work budget: by the reference run, or where it stops and something is
// kept for the live orders, as that has it or as the match, whichever covers more, with the bound
// that is kept. What is kept for the market is let go of. A refusal changes nothing.
pub(crate) fn clear(
    alloc: Global,
    exchange: &mut Exchange,
    kept: &mut KeptByMarket,
    market: u32,
    budget: u32,
) -> Result<ServedReply, Failure>
    requires budget { IsBudget budget }
    requires proved { AreProvedIn exchange.old.book kept.old }
    ensures refused { TellsFirst unless_memory result
        (refusals exchange.old (Command.Clear market budget)) }
    ensures cleared { IfOk result (λ reply. (reply, state_of exchange.new kept.new)
        ≡ cleared_by (state_of exchange.old kept.old) market budget
        (better_in (state_of exchange.old kept.old) market budget)) }
    ensures unchanged { IfErr result (λ failure. IfSome (unless_memory failure) (λ first.
        state_of exchange.new kept.new ≡ state_of exchange.old kept.old)) }
    ensures proved { AreProvedIn exchange.new.book kept.new }
{
    let (batch, outcome) = exchange.reference(market, budget)?;
    Ok(charge(alloc, exchange, kept, market, batch, outcome)?)
}
