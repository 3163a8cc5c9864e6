//! The answer to a line.
ghost use Rattle.std.specs.Prelude.{◌≡◌, ◌≤◌, ◌+◌, ◌++◌, [], ◌∷◌, IfOk, IfSome, IsTrue, length, map};
ghost use Rattle.form.specs.declared.orders.Order.{Order};
ghost use Rattle.form.specs.Limits.{IsWithinLimits};
ghost use Rattle.limits.specs.declared.TheConstants.{MAX_BYTES};
ghost use Rattle.reply_print.specs.Within.{IsBatchWithin};
ghost use Rattle.proposals.specs.Judged.{IsJudgedBound};
ghost use Rattle.match_proposals.specs.Least.{EarnsTheMatch};
ghost use Rattle.book_proposals.specs.Answers.{IsAnswerTo, IsProposed, proposing_text, submission_for};

use crate::books::book_of;
use crate::written::is_written;
use form::{Batch, Order};
use itoa::Buffer;
use limits::MAX_BYTES;
use match_proposals::at_least_match;
use near_solver::propose;
use proposal_check::Proposal;
use proposal_text::{Submission, print_submission};
use proposals::{OrderNumbers, nothing};
use std::alloc::{AllocError, Global};

/// What is written for a line without its line feed: where it is the print of a reply that tells
/// the live orders of a market, the line `propose,MARKET,PROPOSAL` and a line feed, with a proposal
/// for just these orders that is judged a bound, as short as an exchange takes it; and nothing for
/// any other line. It earns at least the match of each bundle, or is of nothing, with the least cover.
/// The only error is want of memory.
pub fn propose_for(alloc: Global, line: &[u8]) -> Result<Vec<u8>, AllocError>
    ensures answer { IfOk result (λ text. IsAnswerTo line.now text.items) }
{
    match book_of(alloc, line)? {
        Some(book) => proposal_for(alloc, book.market, &book.batch),
        None => Ok(Vec::new(alloc)),
    }
}

// The line of a proposal for the live orders of a market: of what the solver proposes, where an
// exchange reads its line; else of the match of each bundle; and else of nothing.
fn proposal_for(alloc: Global, market: u32, batch: &Batch) -> Result<Vec<u8>, AllocError>
    requires within { IsWithinLimits batch.now }
    requires ranges { IsBatchWithin batch.now }
    ensures { IfOk result (λ text. IsProposed market batch.now text.items) }
{
    match found_line(alloc, market, batch)? {
        Some(line) => Ok(line),
        None => proposing_line(alloc, market, batch, nothing(alloc, batch)?),
    }
}

// The line of what the solver proposes, or else of the match.
fn found_line(alloc: Global, market: u32, batch: &Batch) -> Result<Option<Vec<u8>>, AllocError>
    requires within { IsWithinLimits batch.now }
    requires ranges { IsBatchWithin batch.now }
    ensures { IfOk result (λ line. IfSome line (λ text. IsProposed market batch.now text.items)) }
{
    match written_line(alloc, market, batch, propose(alloc, batch)?)? {
        Some(line) => Ok(Some(line)),
        None => matched_line(alloc, market, batch),
    }
}

// The line of the match of each bundle, where that earns something, and else of nothing.
fn matched_line(alloc: Global, market: u32, batch: &Batch) -> Result<Option<Vec<u8>>, AllocError>
    requires within { IsWithinLimits batch.now }
    requires ranges { IsBatchWithin batch.now }
    ensures { IfOk result (λ line. IfSome line (λ text. IsProposed market batch.now text.items)) }
{
    let matched = at_least_match(alloc, batch, nothing(alloc, batch)?)?;
    written_line(alloc, market, batch, matched)
}

// The line of a proposal that earns at least the match, where its numbers are within their ranges and
// it is short.
fn written_line(
    alloc: Global,
    market: u32,
    batch: &Batch,
    proposal: Proposal,
) -> Result<Option<Vec<u8>>, AllocError>
    requires within { IsWithinLimits batch.now }
    requires ranges { IsBatchWithin batch.now }
    requires judged { IsJudgedBound batch.now proposal }
    requires earned { EarnsTheMatch batch.now proposal }
    ensures { IfOk result (λ line. IfSome line (λ text. IsProposed market batch.now text.items)) }
{
    if !is_written(batch, &proposal) {
        return Ok(None);
    }
    let line = proposing_line(alloc, market, batch, proposal)?;
    if is_short(&line) {
        Ok(Some(line))
    } else {
        Ok(None)
    }
}

// Whether an exchange takes a line with its line feed.
fn is_short(line: &[u8]) -> bool
    ensures { IsTrue result → length line.now ≤ MAX_BYTES + 1 }
{
    line.len() <= MAX_BYTES + 1
}

// The line of a proposal for a market's live orders, and a line feed.
fn proposing_line(
    alloc: Global,
    market: u32,
    batch: &Batch,
    proposal: Proposal,
) -> Result<Vec<u8>, AllocError>
    ensures { IfOk result (λ line.
        line.items ≡ proposing_text market (submission_for batch.now proposal) ++ 10 ∷ []) }
{
    let submission = Submission {
        orders: OrderNumbers::from_vec(numbers_of(alloc, batch.orders.as_slice())?),
        proposal,
    };
    submitting_line(alloc, market, &submission)
}

// The numbers of orders.
fn numbers_of(alloc: Global, orders: &[Order]) -> Result<Vec<u64>, AllocError>
    ensures { IfOk result (λ numbers.
        numbers.items ≡ map (λ (order : Order). order.id) orders.now) }
{
    orders.iter().map(|order| order.id).collect(alloc)
}

// The line that hands something in for a market, and a line feed.
fn submitting_line(
    alloc: Global,
    market: u32,
    submission: &Submission,
) -> Result<Vec<u8>, AllocError>
    ensures { IfOk result (λ line. line.items ≡ proposing_text market submission.now ++ 10 ∷ []) }
{
    let proposal = print_submission(alloc, submission)?;
    let mut line = Vec::new(alloc);
    line.extend_from_slice(b"propose,")?;
    line.extend_from_slice(Buffer::new().format(market).as_bytes())?;
    line.push(b',')?;
    line.extend_from_slice(&proposal)?;
    line.push(b'\n')?;
    Ok(line)
}
