//! The texts of the answers.
ghost use Rattle.std.specs.Prelude.{◌≡◌, IfOk, string_bytes};
ghost use Rattle.std.specs.Option.{option_map};
ghost use Rattle.session_gate.specs.Gate.{message_of};
ghost use Rattle.session_lines.specs.Questions.{asked_tail, asked_text};
ghost use Rattle.session_lines.specs.Texts.{accepted_head, accepted_tail, accepted_text, answer_text, expecting_text, malformed_text, refusal_text, refused_text, sessions_text};

use crate::messages::Sent;
use session_gate::Answer;
use std::alloc::{AllocError, Global};

/// What stands in front of the reply to an accepted message.
pub fn print_head(alloc: Global, number: u32) -> Result<String, AllocError>
    ensures { IfOk result (λ text. string_bytes text ≡ accepted_head number) }
{
    format!(in alloc; "{{\"number\":{number},\"of\":")
}

/// The end of a line that tells its session.
pub fn print_tail(alloc: Global, session: u32) -> Result<String, AllocError>
    ensures { IfOk result (λ text. string_bytes text ≡ accepted_tail session) }
{
    format!(in alloc; ",\"session\":{session}}}\n")
}

fn print_refusal(alloc: Global, line: u32, number: u8, reason: &str) -> Result<String, AllocError>
    ensures { IfOk result (λ text. string_bytes text ≡ refusal_text line number reason.now) }
{
    format!(in alloc;
        "\"line\":{line},\"number\":{number},\"reason\":\"{reason}\",\"reply\":\"gate\""
    )
}

/// A line that is no message.
pub fn print_malformed(alloc: Global, line: u32) -> Result<String, AllocError>
    ensures { IfOk result (λ text. string_bytes text ≡ malformed_text line) }
{
    let refusal = print_refusal(alloc, line, 15, "Malformed")?;
    let refusal = refusal.as_str();
    format!(in alloc; "{{{refusal}}}\n")
}

// A message that would make one session too many.
fn print_sessions(alloc: Global, line: u32, session: u32) -> Result<String, AllocError>
    ensures { IfOk result (λ text. string_bytes text ≡ sessions_text line session) }
{
    let refusal = print_refusal(alloc, line, 19, "Sessions")?;
    let refusal = refusal.as_str();
    let tail = print_tail(alloc, session)?;
    let tail = tail.as_str();
    format!(in alloc; "{{{refusal}{tail}")
}

// A message whose session goes on with another number.
fn print_expecting(
    alloc: Global,
    line: u32,
    session: u32,
    expected: u32,
    number: u8,
    reason: &str,
) -> Result<String, AllocError>
    ensures { IfOk result (λ text.
        string_bytes text ≡ expecting_text line session expected number reason.now) }
{
    let refusal = print_refusal(alloc, line, number, reason)?;
    let refusal = refusal.as_str();
    let tail = print_tail(alloc, session)?;
    let tail = tail.as_str();
    format!(in alloc; "{{\"expected\":{expected},{refusal}{tail}")
}

/// The line that refuses a message; `None` where it is accepted.
pub fn print_refused(
    alloc: Global,
    line: u32,
    sent: &Sent,
    answer: Answer,
) -> Result<Option<String>, AllocError>
    ensures { IfOk result (λ text. option_map (λ t. string_bytes t) text
        ≡ refused_text line (message_of sent.now.session sent.now.number sent.now.body.now) answer) }
{
    let session = sent.session;
    let text = match answer {
        Answer::First | Answer::Repeat => return Ok(None),
        Answer::Old { expected } => print_expecting(alloc, line, session, expected, 16, "Old")?,
        Answer::Ahead { expected } => print_expecting(alloc, line, session, expected, 17, "Ahead")?,
        Answer::Changed { expected } => {
            print_expecting(alloc, line, session, expected, 18, "Changed")?
        }
        Answer::Sessions => print_sessions(alloc, line, session)?,
    };
    Ok(Some(text))
}

// The line of an accepted message.
fn print_accepted(
    alloc: Global,
    session: u32,
    number: u32,
    reply: &[u8],
) -> Result<Vec<u8>, AllocError>
    ensures { IfOk result (λ text. text.items ≡ accepted_text session number reply.now) }
{
    let tail = print_tail(alloc, session)?;
    let mut text = print_head(alloc, number)?.into_bytes();
    text.extend_from_slice(reply)?;
    text.extend_from_slice(tail.as_bytes())?;
    Ok(text)
}

/// The line of the answer to a message, whose session's kept reply this is.
pub(crate) fn print_told(
    alloc: Global,
    line: u32,
    sent: &Sent,
    answer: Answer,
    reply: &[u8],
) -> Result<Vec<u8>, AllocError>
    ensures { IfOk result (λ text. text.items ≡ answer_text line
        (message_of sent.now.session sent.now.number sent.now.body.now) answer reply.now) }
{
    match print_refused(alloc, line, sent, answer)? {
        Some(text) => Ok(text.into_bytes()),
        None => print_accepted(alloc, sent.session, sent.number, reply),
    }
}

// The end of the line of an answer to what a session asks.
fn print_asked_tail(alloc: Global, session: u32) -> Result<String, AllocError>
    ensures { IfOk result (λ text. string_bytes text ≡ asked_tail session) }
{
    format!(in alloc; ",\"reply\":\"asked\",\"session\":{session}}}\n")
}

/// The line that tells what a session is answered that asks.
pub fn print_asked(alloc: Global, session: u32, reply: &[u8]) -> Result<Vec<u8>, AllocError>
    ensures { IfOk result (λ text. text.items ≡ asked_text session reply.now) }
{
    let tail = print_asked_tail(alloc, session)?;
    let mut text = Vec::new(alloc);
    text.extend_from_slice(b"{\"of\":")?;
    text.extend_from_slice(reply)?;
    text.extend_from_slice(tail.as_bytes())?;
    Ok(text)
}
