// Lines that tell the reply to an accepted message, or to a question, as they are read.
ghost use Rattle.std.specs.Prelude.{◌≡◌, IfOk, option_and_then, option_map, string_bytes};
ghost use Rattle.serde_json.specs.View.{view};
ghost use Rattle.session_gate.specs.Heads.{accepted_head};
ghost use Rattle.journal_audit.specs.Accepted.{before_end, between, if_braced, is_accepted as accepted_is, is_braced as braced_is, is_object as object_is, is_questioned as questioned_is, message_from as message_found, question_in as question_found, question_tail as question_tail_is, reply_in as reply_found, tail_text};

use limits::{MAX_MESSAGE, MAX_SESSION};
use reply_print::look::{has_at, has_members, has_whole, has_word};
use reply_text::taking::natural_at;
use serde_json::Value;
use std::alloc::{AllocError, Global};

fn is_object(value: &Value) -> bool
    ensures { result ≡ object_is (view value.now) }
{
    value.as_object().is_some()
}

// Whether the value is that of such a line.
pub(crate) fn is_accepted(value: &Value) -> bool
    ensures { result ≡ accepted_is (view value.now) }
{
    has_members(value, 3)
        && has_whole(value, "number")
        && has_at(value, "of", is_object)
        && has_whole(value, "session")
}

// Whether it is that of one that tells the reply to a question.
pub(crate) fn is_questioned(value: &Value) -> bool
    ensures { result ≡ questioned_is (view value.now) }
{
    has_members(value, 3)
        && has_at(value, "of", is_object)
        && has_word(value, "reply", "asked")
        && has_whole(value, "session")
}

// The numbers of the message and of its session, within their ranges.
pub(crate) fn message_from(value: &Value) -> Option<(u32, u32)>
    ensures { option_map (λ p. (p.0, p.1)) result ≡ message_found (view value.now) }
{
    let number = natural_at(value, 1, u64::from(MAX_MESSAGE), "number")? as u32;
    let session = natural_at(value, 1, u64::from(MAX_SESSION), "session")? as u32;
    Some((number, session))
}

fn head(alloc: Global, number: u32) -> Result<String, AllocError>
    ensures { IfOk result (λ text. string_bytes text ≡ accepted_head number) }
{
    format!(in alloc; "{{\"number\":{number},\"of\":")
}

fn tail(alloc: Global, session: u32) -> Result<String, AllocError>
    ensures { IfOk result (λ text. string_bytes text ≡ tail_text session) }
{
    format!(in alloc; ",\"session\":{session}}}")
}

fn before_end<'a>(text: &'a [u8], end: &[u8]) -> Option<&'a [u8]>
    ensures { option_map (λ t. t.now) result ≡ before_end end.now text.now }
{
    text.strip_suffix(end)
}

// What stands between a front and an end.
fn between<'a>(text: &'a [u8], front: &[u8], end: &[u8]) -> Option<&'a [u8]>
    ensures { option_map (λ t. t.now) result ≡ between front.now end.now text.now }
{
    let rest = text.strip_prefix(front)?;
    before_end(rest, end)
}

// Whether a text begins and ends as an object does.
fn is_braced(text: &[u8]) -> bool
    ensures { result ≡ braced_is text.now }
{
    match text {
        [b'{', rest @ ..] => rest.strip_suffix(b"}".as_slice()).is_some(),
        _ => false,
    }
}

fn if_braced(text: Option<&[u8]>) -> Option<&[u8]>
    ensures { option_map (λ t. t.now) result
        ≡ option_and_then if_braced (option_map (λ t. t.now) text.entry) }
{
    let text = text?;
    if is_braced(text) { Some(text) } else { None }
}

// The text of the reply to a message, where the line is spelled as such a line is.
pub(crate) fn reply_in<'a>(
    alloc: Global,
    text: &'a [u8],
    number: u32,
    session: u32,
) -> Result<Option<&'a [u8]>, AllocError>
    ensures { IfOk result (λ o. option_map (λ t. t.now) o ≡ reply_found text.now (number, session)) }
{
    let head = head(alloc, number)?;
    let tail = tail(alloc, session)?;
    Ok(if_braced(between(text, head.as_bytes(), tail.as_bytes())))
}

fn question_tail(alloc: Global, session: u32) -> Result<String, AllocError>
    ensures { IfOk result (λ text. string_bytes text ≡ question_tail_is session) }
{
    format!(in alloc; ",\"reply\":\"asked\",\"session\":{session}}}")
}

// The text of the reply to a question of the session, where the line is spelled as such a line is.
pub(crate) fn question_in(
    alloc: Global,
    text: &[u8],
    session: u32,
) -> Result<Option<&[u8]>, AllocError>
    ensures { IfOk result (λ o. option_map (λ t. t.now) o ≡ question_found text.now session) }
{
    let tail = question_tail(alloc, session)?;
    Ok(if_braced(between(text, "{\"of\":".as_bytes(), tail.as_bytes())))
}
