// What is found of one line.
ghost use Rattle.std.specs.Prelude.{◌≡◌, IfOk, Some, codes, option_map};
ghost use Rattle.serde_json.specs.View.{view};
ghost use Rattle.reply_print.specs.Look.{word_at as word_found};
ghost use Rattle.reply_text.specs.Tests.{json_of, value_by};
ghost use Rattle.proposal_text.specs.ReplyValues.{proposal_tests};
ghost use Rattle.proposal_text.specs.Within.{IsProposalReplyWithin};
ghost use Rattle.journal_audit.specs.Accepted.{message_from as message_found};
ghost use Rattle.journal_audit.specs.GateLines.{gate_tests, session_at as session_found};
ghost use Rattle.journal_audit.specs.Findings.{accepted_finding as accepted_is, plain_found as plain_read, proposal_found as proposal_read, audit_finding as audit_is, beside as beside_is, is_asked_word as asked_word_is, is_served_refusal as served_refusal_is, is_served_word as served_word_is, proposal_finding as proposal_is, questioned_finding as questioned_is, reply_found as reply_is, served_finding as served_is, session_beside as session_beside_is, session_value_finding as session_value_is, tells_proposal as proposal_is_told, unspelled as unspelled_is, value_finding as value_is};

use crate::accepted::{is_accepted, is_questioned, message_from, question_in, reply_in};
use crate::gate_reading::{read_gate_value, session_at};
use journal_check::findings::{bounded_finding, fault_finding, reply_finding};
use journal_check::{Finding, Reason};
use proposal_text::ProposalReply;
use proposal_text::reading::read_proposal_value;
use reply_print::look::{number_at, word_at};
use reply_text::reading::json_value;
use reply_text::{LineFault, read_line};
use serde_json::Value;
use std::alloc::{AllocError, Global};

fn proposal_finding(alloc: Global, reply: &ProposalReply) -> Result<Finding, AllocError>
    requires { IsProposalReplyWithin reply.now }
    ensures { IfOk result (λ f. f ≡ proposal_is reply.now) }
{
    match reply {
        ProposalReply::Bounded { batch, outcome, .. } => {
            bounded_finding(alloc, batch, &outcome.proposal, &outcome.bound)
        }
        _ => Ok(Finding::Plain),
    }
}

// Whether a refusal is one that a run has not.
fn is_served_refusal(number: u64) -> bool
    ensures { result ≡ served_refusal_is number }
{
    (number == 14 || number == 20 || number == 21) || (23 <= number && number <= 27)
}

// Whether a word is that of a reply about phases, needs or trials.
fn is_served_word(word: &str) -> bool
    ensures { result ≡ served_word_is word.now }
{
    (word == "closed" || word == "reopened")
        || (word == "secured" || word == "need" || word == "tried")
}

// Whether a word is that of a reply that tells a quote, prices or a margin.
fn is_asked_word(word: &str) -> bool
    ensures { result ≡ asked_word_is word.now }
{
    word == "quoted" || word == "priced" || word == "margin"
}

fn tells_proposal(value: &Value, word: &str) -> bool
    ensures { result ≡ proposal_is_told word.now (view value.now) }
{
    (word == "book" || word == "positions" || word == "proposed")
        || (word == "cleared" && number_at(value, "version") == 3)
        || is_served_word(word)
        || is_asked_word(word)
        || (word == "refused" && is_served_refusal(number_at(value, "number")))
}

// A line that tells what is told beside a run.
fn proposal_found(alloc: Global, text: &[u8], value: &Value) -> Result<Finding, AllocError>
    requires { json_of text.now ≡ Some (view value.now) }
    ensures { IfOk result (λ f. f ≡ proposal_read (value_by proposal_tests text.now (view value.now))) }
{
    match read_proposal_value(alloc, text, value) {
        Ok((_, reply)) => proposal_finding(alloc, &reply),
        Err(fault) => fault_finding(fault),
    }
}

// A line of the gate.
fn gate_found(alloc: Global, text: &[u8], value: &Value) -> Result<Finding, AllocError>
    ensures { IfOk result (λ f. f ≡ plain_read (value_by gate_tests text.now (view value.now))) }
{
    match read_gate_value(alloc, text, value) {
        Ok(_) => Ok(Finding::Plain),
        Err(fault) => fault_finding(fault),
    }
}

// A line that is not one of a run, and fails its tests by the fault.
fn value_finding(
    alloc: Global,
    text: &[u8],
    fault: LineFault,
    value: &Value,
) -> Result<Finding, AllocError>
    requires { json_of text.now ≡ Some (view value.now) }
    ensures { IfOk result (λ f. f
        ≡ value_is text.now fault (word_found (codes "reply") (view value.now)) (view value.now)) }
{
    let word = word_at(value, "reply");
    if tells_proposal(value, word) {
        proposal_found(alloc, text, value)
    } else {
        fault_finding(fault)
    }
}

fn beside(alloc: Global, text: &[u8], fault: LineFault) -> Result<Finding, AllocError>
    ensures { IfOk result (λ f. f ≡ beside_is text.now fault (json_of text.now)) }
{
    match json_value(alloc, text) {
        Ok(value) => value_finding(alloc, text, fault, &value),
        Err(LineFault::NotJson) => fault_finding(fault),
        Err(_) => Err(AllocError),
    }
}

// A line of `serve`.
fn served_finding(alloc: Global, text: &[u8]) -> Result<Finding, AllocError>
    ensures { IfOk result (λ f. f ≡ served_is text.now) }
{
    match read_line(alloc, text) {
        Ok((_, reply)) => reply_finding(alloc, &reply),
        Err(LineFault::Memory) => Err(AllocError),
        Err(fault) => beside(alloc, text, fault),
    }
}

// What is no JSON is not spelled as a reply is.
fn unspelled(finding: Finding) -> Finding
    ensures { result ≡ unspelled_is finding }
{
    match finding {
        Finding::Faulty(Reason::NotJson) => Finding::Faulty(Reason::Spelling),
        other => other,
    }
}

fn reply_found(alloc: Global, reply: Option<&[u8]>) -> Result<Finding, AllocError>
    ensures { IfOk result (λ f. f ≡ reply_is (option_map (λ t. t.now) reply.entry)) }
{
    match reply {
        Some(text) => Ok(unspelled(served_finding(alloc, text)?)),
        None => Ok(Finding::Faulty(Reason::Spelling)),
    }
}

// A line that tells the reply to an accepted message.
fn accepted_finding(alloc: Global, text: &[u8], value: &Value) -> Result<Finding, AllocError>
    ensures { IfOk result (λ f. f ≡ accepted_is text.now (message_found (view value.now))) }
{
    match message_from(value) {
        Some((number, session)) => reply_found(alloc, reply_in(alloc, text, number, session)?),
        None => Ok(Finding::Faulty(Reason::Range)),
    }
}

// A line that tells the reply to a question.
fn questioned_finding(alloc: Global, text: &[u8], value: &Value) -> Result<Finding, AllocError>
    ensures { IfOk result (λ f. f ≡ questioned_is text.now (session_found (view value.now))) }
{
    match session_at(value) {
        Some(session) => reply_found(alloc, question_in(alloc, text, session)?),
        None => Ok(Finding::Faulty(Reason::Range)),
    }
}

fn session_value_finding(
    alloc: Global,
    text: &[u8],
    fault: LineFault,
    value: &Value,
) -> Result<Finding, AllocError>
    requires { json_of text.now ≡ Some (view value.now) }
    ensures { IfOk result (λ f. f ≡ session_value_is text.now fault
        (word_found (codes "reply") (view value.now)) (view value.now)) }
{
    if is_accepted(value) {
        accepted_finding(alloc, text, value)
    } else if is_questioned(value) {
        questioned_finding(alloc, text, value)
    } else if word_at(value, "reply") == "gate" {
        gate_found(alloc, text, value)
    } else {
        value_finding(alloc, text, fault, value)
    }
}

fn session_beside(alloc: Global, text: &[u8], fault: LineFault) -> Result<Finding, AllocError>
    ensures { IfOk result (λ f. f ≡ session_beside_is text.now fault (json_of text.now)) }
{
    match json_value(alloc, text) {
        Ok(value) => session_value_finding(alloc, text, fault, &value),
        Err(LineFault::NotJson) => fault_finding(fault),
        Err(_) => Err(AllocError),
    }
}

// What a line of `serve` or of `serve sessions` is found to be.
pub(crate) fn found_in(alloc: Global, text: &[u8]) -> Result<Finding, AllocError>
    ensures { IfOk result (λ f. f ≡ audit_is text.now) }
{
    match read_line(alloc, text) {
        Ok((_, reply)) => reply_finding(alloc, &reply),
        Err(LineFault::Memory) => Err(AllocError),
        Err(fault) => session_beside(alloc, text, fault),
    }
}
