// Cleared batches of version 3, added to a line.
ghost use Rattle.std.specs.Prelude.{true, ◌≡◌, ◌++◌, OnOk};
ghost use Rattle.reply_print.specs.Piece.{fields_text, no_fields, piece_text};
ghost use Rattle.proposal_text.specs.Pieces.{bounded_end, bounded_middle, bounded_piece, stop_word};

use crate::cover_text::add_proof;
use crate::replies::{BoundedOutcome, StopReason};
use form::Batch;
use reply_print::printed_orders::add_orders;
use reply_print::printing::{add_field, add_items, add_key, add_number, add_words, append};
use std::alloc::AllocError;

pub(crate) fn stop(run: StopReason) -> &'static str
    ensures { result.now ≡ stop_word run }
{
    match run {
        StopReason::Wide => "wide",
        StopReason::Budget => "budget",
    }
}

// Adds what stands from the orders on.
fn add_end(line: &mut Vec<u8>, batch: &Batch, outcome: &BoundedOutcome) -> Result<(), AllocError>
    ensures { OnOk result (line.new.items ++ fields_text true no_fields
        ≡ line.old.items ++ fields_text true (bounded_end batch.now outcome.now)) }
{
    add_key(line, true, "orders")?;
    add_orders(line, batch.orders.as_slice(), false)?;
    add_words(line, true, "reply", "cleared")?;
    add_words(line, true, "run", stop(outcome.run))?;
    add_field(line, true, "surplus", &outcome.proposal.claim.surplus)?;
    add_number(line, true, "underlyings", u64::from(batch.underlyings))?;
    add_number(line, true, "units", u64::from(outcome.units))?;
    add_number(line, true, "version", 3)
}

// Adds what stands from the fills on.
fn add_middle(
    line: &mut Vec<u8>,
    at: u32,
    market: u32,
    batch: &Batch,
    outcome: &BoundedOutcome,
) -> Result<(), AllocError>
    ensures { OnOk result (line.new.items ++ fields_text true no_fields
        ≡ line.old.items ++ fields_text true (bounded_middle at market batch.now outcome.now)) }
{
    add_items(line, true, "fills", outcome.proposal.fills.as_slice())?;
    add_field(line, true, "liability", &outcome.proposal.claim.liability)?;
    add_number(line, true, "line", u64::from(at))?;
    add_words(line, true, "mark", "bounded")?;
    add_number(line, true, "market", u64::from(market))?;
    add_end(line, batch, outcome)
}

// Adds a cleared batch.
pub(crate) fn add_bounded(
    line: &mut Vec<u8>,
    at: u32,
    number: u32,
    market: u32,
    batch: &Batch,
    outcome: &BoundedOutcome,
) -> Result<(), AllocError>
    ensures { OnOk result (line.new.items ≡ line.old.items
        ++ piece_text (bounded_piece at number market batch.now outcome.now)) }
{
    append(line, "{")?;
    add_number(line, false, "batch", u64::from(number))?;
    add_field(line, true, "bound", &outcome.bound)?;
    add_key(line, true, "certificate")?;
    add_proof(line, &outcome.proposal.cover, &outcome.proposal.measure)?;
    add_middle(line, at, market, batch, outcome)?;
    append(line, "}")
}
