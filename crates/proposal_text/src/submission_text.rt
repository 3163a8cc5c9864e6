//! What a line proposes, both ways.
ghost use Rattle.std.specs.Prelude.{◌≡◌, ◌⊎◌, ◌↔◌, ◌++◌, IfErr, IfOk, IfSome, IsTrue, OnOk, Err, Ok, Some};
ghost use Rattle.serde_json.specs.View.{view};
ghost use Rattle.reply_print.specs.Piece.{piece_text};
ghost use Rattle.reply_print.specs.Look.{is_list as list_passes, is_whole as whole_number};
ghost use Rattle.reply_text.specs.Tests.{read_by, value_by};
ghost use Rattle.reply_text.specs.declared.faults.LineFault.TheVariants.{Memory};
ghost use Rattle.proposal_text.specs.Pieces.{submission_piece, submission_text};
ghost use Rattle.proposal_text.specs.declared.submissions.Submission.{Submission};
ghost use Rattle.proposal_text.specs.Submissions.{IsTextOf, order_number_from as number_found, order_numbers_at as numbers_found, proposal_from as proposal_found, proposal_numbers as numbers_are, proposal_shape as shape_is, submission_from as submission_found, submission_of, submission_shape as submission_is, submission_tests};

use crate::cover_reading::{proof_numbers, proof_shape, proved_by};
use crate::cover_text::add_proof;
use crate::submissions::Submission;
use form::{MAX_ORDER, MAX_ORDERS};
use proposal_check::Proposal;
use proposals::OrderNumbers;
use reply_print::cleared_numbers::{are_fills, has_fraction};
use reply_print::cleared_shape::are_texts;
use reply_print::look::{has_members, has_text, is_list, is_whole};
use reply_print::printing::{add_field, add_items, add_key, append};
use reply_text::LineFault;
use reply_text::certificate_values::{claim_at, fills_at};
use reply_text::reading::json_value;
use reply_text::taking::{ItemReader, from_to, list_at};
use reply_text::tested::is_same;
use serde_json::Value;
use std::alloc::{AllocError, Global};

// Adds what is proposed.
fn add_submission(line: &mut Vec<u8>, submission: &Submission) -> Result<(), AllocError>
    ensures { OnOk result (line.new.items
        ≡ line.old.items ++ piece_text (submission_piece submission.now)) }
{
    let proposal = &submission.proposal;
    append(line, "{")?;
    add_key(line, false, "certificate")?;
    add_proof(line, &proposal.cover, &proposal.measure)?;
    add_items(line, true, "fills", proposal.fills.as_slice())?;
    add_field(line, true, "liability", &proposal.claim.liability)?;
    add_items(line, true, "orders", submission.orders.as_slice())?;
    add_field(line, true, "surplus", &proposal.claim.surplus)?;
    append(line, "}")
}

/// The text of what is proposed. The only error is want of memory.
pub fn print_submission(alloc: Global, submission: &Submission) -> Result<Vec<u8>, AllocError>
    ensures { IfOk result (λ text. text.items ≡ submission_text submission.now) }
{
    let mut text = Vec::new(alloc);
    add_submission(&mut text, submission)?;
    Ok(text)
}

// Whether the parts of a proposal are of their kinds.
pub(crate) fn proposal_shape(value: &Value) -> bool
    ensures { result ≡ shape_is (view value.now) }
{
    matches!(value.get("certificate"), Some(certificate) if proof_shape(certificate))
        && matches!(value.get("fills"), Some(fills) if are_texts(fills))
        && has_text(value, "liability")
        && has_text(value, "surplus")
}

// Whether its texts are numbers where they should be.
pub(crate) fn proposal_numbers(value: &Value) -> bool
    ensures { result ≡ numbers_are (view value.now) }
{
    matches!(value.get("certificate"), Some(certificate) if proof_numbers(certificate))
        && matches!(value.get("fills"), Some(fills) if are_fills(fills))
        && has_fraction(value, "liability")
        && has_fraction(value, "surplus")
}

fn are_wholes(value: &Value) -> bool
    ensures { result ≡ list_passes whole_number (view value.now) }
{
    is_list(value, is_whole)
}

fn submission_shape(value: &Value) -> bool
    ensures { result ≡ submission_is (view value.now) }
{
    has_members(value, 5)
        && proposal_shape(value)
        && matches!(value.get("orders"), Some(orders) if are_wholes(orders))
}

// The proposal that is taken out of a value, where its numbers are within their ranges.
pub(crate) fn proposal_from(alloc: Global, value: &Value) -> Result<Option<Proposal>, AllocError>
    ensures { IfOk result (λ o. o ≡ proposal_found (view value.now)) }
{
    let Some(claim) = claim_at(value) else {
        return Ok(None);
    };
    let Some(fills) = fills_at(alloc, value)? else {
        return Ok(None);
    };
    match value.get("certificate") {
        Some(certificate) => proved_by(alloc, fills, claim, certificate),
        None => Ok(None),
    }
}

// The numbers of orders.
struct NumberReader;

impl ItemReader for NumberReader {
    type Item = u64;

    ghost found = { λ _. number_found };

    fn item_from(&self, _alloc: Global, value: &Value) -> Result<Option<u64>, AllocError> {
        let Some(number) = value.as_u64() else {
            return Ok(None);
        };
        Ok(from_to(1, MAX_ORDER, number))
    }
}

fn order_numbers(alloc: Global, value: &Value) -> Result<Option<OrderNumbers>, AllocError>
    ensures { IfOk result (λ o. o ≡ numbers_found (view value.now)) }
{
    let Some(numbers) = list_at(alloc, value, "orders", &NumberReader)? else {
        return Ok(None);
    };
    if numbers.len() > MAX_ORDERS {
        return Ok(None);
    }
    Ok(Some(OrderNumbers::from_vec(numbers)))
}

fn submission_from(alloc: Global, value: &Value) -> Result<Option<Submission>, AllocError>
    ensures { IfOk result (λ o. o ≡ submission_found (view value.now)) }
{
    let Some(orders) = order_numbers(alloc, value)? else {
        return Ok(None);
    };
    let Some(proposal) = proposal_from(alloc, value)? else {
        return Ok(None);
    };
    Ok(Some(Submission { orders, proposal }))
}

fn is_spelled(alloc: Global, submission: &Submission, text: &[u8]) -> Result<bool, AllocError>
    ensures { IfOk result (λ same. IsTrue same ↔ (submission_text submission.now ≡ text.now)) }
{
    let spelled = print_submission(alloc, submission)?;
    Ok(is_same(spelled.as_slice(), text))
}

// The tests on the value of a text.
fn read_value(alloc: Global, text: &[u8], value: &Value) -> Result<Submission, LineFault>
    ensures ok { IfOk result (λ s. value_by submission_tests text.now (view value.now) ≡ Ok s) }
    ensures err { IfErr result (λ e. (e ≡ Memory)
        ⊎ (value_by submission_tests text.now (view value.now) ≡ Err e)) }
{
    if !submission_shape(value) {
        return Err(LineFault::Shape);
    }
    if !proposal_numbers(value) {
        return Err(LineFault::Number);
    }
    let Some(submission) = submission_from(alloc, value)? else {
        return Err(LineFault::Range);
    };
    if is_spelled(alloc, &submission, text)? {
        Ok(submission)
    } else {
        Err(LineFault::Spelling)
    }
}

// What a text proposes, or the first test that it fails.
fn read_tested(alloc: Global, text: &[u8]) -> Result<Submission, LineFault>
    ensures ok { IfOk result (λ s. read_by submission_tests text.now ≡ Ok s) }
    ensures err { IfErr result (λ e. (e ≡ Memory)
        ⊎ (read_by submission_tests text.now ≡ Err e)) }
{
    let value = json_value(alloc, text)?;
    read_value(alloc, text, &value)
}

// What a text proposes, where it passes the tests.
fn submission_read(alloc: Global, text: &[u8]) -> Result<Option<Submission>, AllocError>
    ensures { IfOk result (λ read. read ≡ submission_of text.now) }
{
    match read_tested(alloc, text) {
        Ok(submission) => Ok(Some(submission)),
        Err(LineFault::Memory) => Err(AllocError),
        Err(_) => Ok(None),
    }
}

/// What a text proposes: `Some` exactly where the text is the print of it and all is within its
/// ranges. The only error is want of memory.
pub fn read_submission(alloc: Global, text: &[u8]) -> Result<Option<Submission>, AllocError>
    ensures read { IfOk result (λ read. read ≡ submission_of text.now) }
    ensures each_text { (s : Submission) → IsTextOf text.now s → IfOk result (λ read. read ≡ Some s) }
    ensures text { IfOk result (λ read. IfSome read (IsTextOf text.now)) }
{
    submission_read(alloc, text)
}
