// The lines of cleared batches and of settlements.
ghost use Rattle.std.specs.Prelude.{true, ◌≡◌, ◌++◌, OnOk};
ghost use Rattle.reply_print.specs.BatchPieces.{are_single, is_single, version_of};
ghost use Rattle.reply_print.specs.Piece.{fields_text, no_fields, piece_text};
ghost use Rattle.reply_print.specs.ReplyPieces.{cleared_end, cleared_middle, cleared_piece, settled_piece};

use crate::printed_orders::add_orders;
use crate::printed_outcomes::{add_proof, add_step};
use crate::printing::{add_field, add_items, add_key, add_number, add_words, append};
use crate::words::mark;
use cert_check::Outcome;
use form::{Batch, Leg, Order};
use settlement::PaidOut;
use std::alloc::AllocError;

// Whether each order is one leg of count 1.
fn is_version_1(orders: &[Order]) -> bool
    ensures { result ≡ are_single orders.now }
{
    orders
        .iter()
        .all(|order| is_one_leg(order.bundle.as_slice()))
}

fn is_one_leg(legs: &[Leg]) -> bool
    ensures { result ≡ is_single legs.now }
{
    match legs {
        [leg] => leg.count == 1,
        _ => false,
    }
}

fn version(single: bool) -> u64
    ensures { result ≡ version_of single }
{
    if single { 1 } else { 2 }
}

// Adds what stands from the orders on.
fn add_end(
    line: &mut Vec<u8>,
    batch: &Batch,
    outcome: &Outcome,
    single: bool,
) -> Result<(), AllocError>
    ensures { OnOk result (line.new.items ++ fields_text true no_fields ≡ line.old.items
        ++ fields_text true (cleared_end batch.now outcome.now outcome.now.mark single)) }
{
    add_key(line, true, "orders")?;
    add_orders(line, batch.orders.as_slice(), single)?;
    add_words(line, true, "reply", "cleared")?;
    add_field(line, true, "surplus", &outcome.claim.surplus)?;
    add_number(line, true, "underlyings", u64::from(batch.underlyings))?;
    add_number(line, true, "units", u64::from(outcome.units))?;
    add_number(line, true, "version", version(single))?;
    add_step(line, &outcome.mark)
}

// Adds what stands from the fills on.
fn add_middle(
    line: &mut Vec<u8>,
    number: u32,
    market: u32,
    batch: &Batch,
    outcome: &Outcome,
) -> Result<(), AllocError>
    ensures { OnOk result (line.new.items ++ fields_text true no_fields ≡ line.old.items
        ++ fields_text true (cleared_middle outcome.now.mark (are_single batch.now.orders)
        number market batch.now outcome.now)) }
{
    add_items(line, true, "fills", outcome.fills.as_slice())?;
    add_field(line, true, "liability", &outcome.claim.liability)?;
    add_number(line, true, "line", u64::from(number))?;
    add_words(line, true, "mark", mark(&outcome.mark))?;
    add_number(line, true, "market", u64::from(market))?;
    add_end(line, batch, outcome, is_version_1(batch.orders.as_slice()))
}

// Adds a cleared batch.
pub(crate) fn add_cleared(
    line: &mut Vec<u8>,
    at: u32,
    number: u32,
    market: u32,
    batch: &Batch,
    outcome: &Outcome,
) -> Result<(), AllocError>
    ensures { OnOk result (line.new.items ≡ line.old.items
        ++ piece_text (cleared_piece at number market batch.now outcome.now)) }
{
    append(line, "{")?;
    add_number(line, false, "batch", u64::from(number))?;
    add_proof(line, &outcome.mark)?;
    add_middle(line, at, market, batch, outcome)?;
    append(line, "}")
}

// Adds a settlement.
pub(crate) fn add_settled(
    line: &mut Vec<u8>,
    at: u32,
    market: u32,
    lapsed: u32,
    payouts: &[PaidOut],
) -> Result<(), AllocError>
    ensures { OnOk result (line.new.items
        ≡ line.old.items ++ piece_text (settled_piece at market lapsed payouts.now)) }
{
    append(line, "{")?;
    add_number(line, false, "lapsed", u64::from(lapsed))?;
    add_number(line, true, "line", u64::from(at))?;
    add_number(line, true, "market", u64::from(market))?;
    add_items(line, true, "payouts", payouts)?;
    add_words(line, true, "reply", "settled")?;
    append(line, "}")
}
