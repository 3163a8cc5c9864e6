// The lines of replies, put together from their pieces.
ghost use Rattle.std.specs.Prelude.{◌≡◌, ◌∷◌, ◌++◌, [], IfOk, OnOk, false};
ghost use Rattle.reply_print.specs.Piece.{piece_text};
ghost use Rattle.reply_print.specs.ReplyPieces.{refused_with};
ghost use Rattle.proposal_text.specs.Pieces.{asked_text, bar_number, bar_word, book_piece, closed_piece, failed_word, positions_piece, proposal_line, proposal_piece, proposed_piece, reopened_piece, served_line, tried_mark, tried_piece, unproved_piece};

use crate::account_lines::{add_needs, add_secured, add_uncovered};
use crate::bounded_lines::{add_bounded, stop};
use crate::margins::add_margin;
use crate::prices::{add_priced, add_quoted};
use crate::replies::{Bar, FailureKind, ProposalReply, ServedReply, StopReason, Trial};
use form::Batch;
use frac::Frac128;
use reply_print::printed_orders::add_orders;
use reply_print::printing::{add_field, add_items, add_key, add_number, add_words, append};
use settlement::Position;
use std::alloc::{AllocError, Global};

fn add_book(line: &mut Vec<u8>, at: u32, market: u32, batch: &Batch) -> Result<(), AllocError>
    ensures { OnOk result (line.new.items
        ≡ line.old.items ++ piece_text (book_piece at market batch.now)) }
{
    append(line, "{")?;
    add_number(line, false, "line", u64::from(at))?;
    add_number(line, true, "market", u64::from(market))?;
    add_key(line, true, "orders")?;
    add_orders(line, batch.orders.as_slice(), false)?;
    add_words(line, true, "reply", "book")?;
    add_number(line, true, "underlyings", u64::from(batch.underlyings))?;
    append(line, "}")
}

fn add_positions(
    line: &mut Vec<u8>,
    at: u32,
    account: u32,
    market: u32,
    positions: &[Position],
) -> Result<(), AllocError>
    ensures { OnOk result (line.new.items
        ≡ line.old.items ++ piece_text (positions_piece at account market positions.now)) }
{
    append(line, "{")?;
    add_number(line, false, "account", u64::from(account))?;
    add_number(line, true, "line", u64::from(at))?;
    add_number(line, true, "market", u64::from(market))?;
    add_items(line, true, "positions", positions)?;
    add_words(line, true, "reply", "positions")?;
    append(line, "}")
}

fn add_proposed(
    line: &mut Vec<u8>,
    at: u32,
    market: u32,
    proved: (Frac128, Frac128),
    best: (Frac128, Frac128),
) -> Result<(), AllocError>
    ensures { OnOk result (line.new.items ≡ line.old.items
        ++ piece_text (proposed_piece at market proved.0 proved.1 best.0 best.1)) }
{
    append(line, "{")?;
    add_field(line, false, "best_surplus", &best.0)?;
    add_field(line, true, "bound", &proved.1)?;
    add_field(line, true, "least_bound", &best.1)?;
    add_number(line, true, "line", u64::from(at))?;
    add_number(line, true, "market", u64::from(market))?;
    add_words(line, true, "reply", "proposed")?;
    add_field(line, true, "surplus", &proved.0)?;
    append(line, "}")
}

// A refusal of which nothing more is told.
fn add_refused(line: &mut Vec<u8>, at: u32, number: u64, reason: &str) -> Result<(), AllocError>
    ensures { OnOk result (line.new.items
        ≡ line.old.items ++ piece_text (refused_with false at number 0 reason.now)) }
{
    append(line, "{")?;
    add_number(line, false, "line", u64::from(at))?;
    add_number(line, true, "number", number)?;
    add_words(line, true, "reason", reason)?;
    add_words(line, true, "reply", "refused")?;
    append(line, "}")
}

fn add_closed(line: &mut Vec<u8>, at: u32, market: u32, orders: u32) -> Result<(), AllocError>
    ensures { OnOk result (line.new.items
        ≡ line.old.items ++ piece_text (closed_piece at market orders)) }
{
    append(line, "{")?;
    add_number(line, false, "line", u64::from(at))?;
    add_number(line, true, "market", u64::from(market))?;
    add_number(line, true, "orders", u64::from(orders))?;
    add_words(line, true, "reply", "closed")?;
    append(line, "}")
}

fn add_reopened(line: &mut Vec<u8>, at: u32, market: u32) -> Result<(), AllocError>
    ensures { OnOk result (line.new.items
        ≡ line.old.items ++ piece_text (reopened_piece at market)) }
{
    append(line, "{")?;
    add_number(line, false, "line", u64::from(at))?;
    add_number(line, true, "market", u64::from(market))?;
    add_words(line, true, "reply", "reopened")?;
    append(line, "}")
}

fn word(failed: FailureKind) -> &'static str
    ensures { result.now ≡ failed_word failed }
{
    match failed {
        FailureKind::BatchShape => "BatchShape",
        FailureKind::Fill => "Fill",
        FailureKind::Cover => "Cover",
        FailureKind::Measure => "Measure",
        FailureKind::Wide => "Wide",
    }
}

fn add_unproved(line: &mut Vec<u8>, at: u32, failed: FailureKind) -> Result<(), AllocError>
    ensures { OnOk result (line.new.items
        ≡ line.old.items ++ piece_text (unproved_piece at failed)) }
{
    append(line, "{")?;
    add_words(line, false, "failed", word(failed))?;
    add_number(line, true, "line", u64::from(at))?;
    add_number(line, true, "number", 21)?;
    add_words(line, true, "reason", "Unproved")?;
    add_words(line, true, "reply", "refused")?;
    append(line, "}")
}

fn mark(stopped: Option<StopReason>) -> &'static str
    ensures { result.now ≡ tried_mark stopped }
{
    match stopped {
        Some(run) => stop(run),
        None => "optimal",
    }
}

fn add_tried(line: &mut Vec<u8>, at: u32, market: u32, trial: &Trial) -> Result<(), AllocError>
    ensures { OnOk result (line.new.items
        ≡ line.old.items ++ piece_text (tried_piece at market trial.now)) }
{
    append(line, "{")?;
    add_field(line, false, "fill", &trial.fill)?;
    add_number(line, true, "line", u64::from(at))?;
    add_words(line, true, "mark", mark(trial.stopped))?;
    add_number(line, true, "market", u64::from(market))?;
    add_words(line, true, "reply", "tried")?;
    add_field(line, true, "surplus", &trial.surplus)?;
    append(line, "}")
}

fn number(bar: Bar) -> u64
    ensures { result ≡ bar_number bar }
{
    match bar {
        Bar::NotAllowed => 25,
        Bar::NotAsked => 26,
        Bar::OverQuota => 27,
    }
}

fn reason(bar: Bar) -> &'static str
    ensures { result.now ≡ bar_word bar }
{
    match bar {
        Bar::NotAllowed => "NotAllowed",
        Bar::NotAsked => "NotAsked",
        Bar::OverQuota => "Quota",
    }
}

// Adds what a question is answered, and nothing of another reply.
fn add_asked(line: &mut Vec<u8>, at: u32, reply: &ProposalReply) -> Result<(), AllocError>
    ensures { OnOk result (line.new.items ≡ line.old.items ++ asked_text at reply.now) }
{
    match reply {
        ProposalReply::Book { market, batch } => add_book(line, at, *market, batch),
        ProposalReply::Positions {
            account,
            market,
            positions,
        } => add_positions(line, at, *account, *market, positions.as_slice()),
        ProposalReply::Needs(told) => add_needs(line, at, told),
        ProposalReply::Quoted { market, bid, ask } => add_quoted(line, at, *market, *bid, *ask),
        ProposalReply::Priced {
            market,
            quantity,
            ask,
            bid,
        } => add_priced(line, at, *market, *quantity, *ask, *bid),
        ProposalReply::Margin {
            account,
            market,
            margin,
        } => add_margin(line, at, *account, *market, margin),
        ProposalReply::Tried { market, trial } => add_tried(line, at, *market, trial),
        _ => Ok(()),
    }
}

// Adds a reply.
fn add_reply(line: &mut Vec<u8>, at: u32, reply: &ProposalReply) -> Result<(), AllocError>
    ensures { OnOk result (line.new.items
        ≡ line.old.items ++ piece_text (proposal_piece at reply.now)) }
{
    match reply {
        ProposalReply::Proposed {
            market,
            surplus,
            bound,
            best_surplus,
            least_bound,
        } => add_proposed(
            line,
            at,
            *market,
            (*surplus, *bound),
            (*best_surplus, *least_bound),
        ),
        ProposalReply::Bounded {
            number,
            market,
            batch,
            outcome,
        } => add_bounded(line, at, *number, *market, batch, outcome),
        ProposalReply::Stale => add_refused(line, at, 20, "Stale"),
        ProposalReply::Unproved { failed } => add_unproved(line, at, *failed),
        ProposalReply::Closed { market, orders } => add_closed(line, at, *market, *orders),
        ProposalReply::Reopened { market } => add_reopened(line, at, *market),
        ProposalReply::MarketIsClosed => add_refused(line, at, 23, "Closed"),
        ProposalReply::MarketIsOpen => add_refused(line, at, 24, "Open"),
        ProposalReply::Secured { account, need } => add_secured(line, at, *account, *need),
        ProposalReply::Uncovered { need } => add_uncovered(line, at, *need),
        ProposalReply::Barred(bar) => add_refused(line, at, number(*bar), reason(*bar)),
        _ => add_asked(line, at, reply),
    }
}

/// The line of a reply, without its line feed. The only error is want of memory.
pub fn print_proposal_reply(
    alloc: Global,
    line: u32,
    reply: &ProposalReply,
) -> Result<Vec<u8>, AllocError>
    ensures { IfOk result (λ text. text.items ≡ proposal_line line reply.now) }
{
    let mut text = Vec::new(alloc);
    add_reply(&mut text, line, reply)?;
    Ok(text)
}

/// The line of what a line is answered, and a line feed. The only error is want of memory.
pub fn print_line(alloc: Global, line: u32, reply: &ServedReply) -> Result<Vec<u8>, AllocError>
    ensures { IfOk result (λ text. text.items ≡ served_line line reply.now ++ 10 ∷ []) }
{
    let mut text = match reply {
        ServedReply::Plain(reply) => reply_print::print(alloc, line, reply)?,
        ServedReply::Told(reply) => print_proposal_reply(alloc, line, reply)?,
    };
    text.push(b'\n')?;
    Ok(text)
}
