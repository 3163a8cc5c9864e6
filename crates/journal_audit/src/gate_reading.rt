// Lines of the gate, as they are read.
ghost use Rattle.std.specs.Prelude.{◌≡◌, ◌⊎◌, ◌++◌, IfErr, IfOk, OnOk, Err, Ok, option_map};
ghost use Rattle.serde_json.specs.View.{view};
ghost use Rattle.reply_print.specs.Piece.{piece_text};
ghost use Rattle.reply_text.specs.Tests.{value_by};
ghost use Rattle.reply_text.specs.declared.faults.LineFault.TheVariants.{Memory};
ghost use Rattle.journal_audit.specs.declared.gate_lines.GateLine.TheVariants as refused;
ghost use Rattle.journal_audit.specs.GateLines.{expecting_from as expecting_found, expecting_shape as expecting_is, gate_by as refused_found, gate_line, gate_lines, gate_piece, gate_shape_by as shape_is, gate_tests, has_reason as reason_is, session_at as session_found, sessions_shape as sessions_are, why_number as number_is, why_word as word_is};

use crate::gate_lines::{GateLine, Why};
use limits::{MAX_MESSAGE, MAX_SESSION};
use reply_print::look::{has_members, has_whole, has_word, number_at};
use reply_print::printing::{add_number, add_words, append};
use reply_text::taking::natural_at;
use reply_text::tested::read_value;
use reply_text::{LineFault, TestedReply};
use serde_json::Value;
use std::alloc::{AllocError, Global};

fn number(why: Why) -> u64
    ensures { result ≡ number_is why }
{
    match why {
        Why::Old => 16,
        Why::Ahead => 17,
        Why::Changed => 18,
    }
}

fn word(why: Why) -> &'static str
    ensures { result.now ≡ word_is why }
{
    match why {
        Why::Old => "Old",
        Why::Ahead => "Ahead",
        Why::Changed => "Changed",
    }
}

fn add_malformed(line: &mut Vec<u8>, at: u32) -> Result<(), AllocError>
    ensures { OnOk result (line.new.items
        ≡ line.old.items ++ piece_text (gate_piece at refused.Malformed)) }
{
    append(line, "{")?;
    add_number(line, false, "line", u64::from(at))?;
    add_number(line, true, "number", 15)?;
    add_words(line, true, "reason", "Malformed")?;
    add_words(line, true, "reply", "gate")?;
    append(line, "}")
}

fn add_sessions(line: &mut Vec<u8>, at: u32, session: u32) -> Result<(), AllocError>
    ensures { OnOk result (line.new.items
        ≡ line.old.items ++ piece_text (gate_piece at (refused.Sessions session))) }
{
    append(line, "{")?;
    add_number(line, false, "line", u64::from(at))?;
    add_number(line, true, "number", 19)?;
    add_words(line, true, "reason", "Sessions")?;
    add_words(line, true, "reply", "gate")?;
    add_number(line, true, "session", u64::from(session))?;
    append(line, "}")
}

fn add_expecting(
    line: &mut Vec<u8>,
    at: u32,
    session: u32,
    expected: u32,
    why: Why,
) -> Result<(), AllocError>
    ensures { OnOk result (line.new.items ≡ line.old.items
        ++ piece_text (gate_piece at (refused.Expecting session expected why))) }
{
    append(line, "{")?;
    add_number(line, false, "expected", u64::from(expected))?;
    add_number(line, true, "line", u64::from(at))?;
    add_number(line, true, "number", number(why))?;
    add_words(line, true, "reason", word(why))?;
    add_words(line, true, "reply", "gate")?;
    add_number(line, true, "session", u64::from(session))?;
    append(line, "}")
}

fn add_gate_line(line: &mut Vec<u8>, at: u32, refused: GateLine) -> Result<(), AllocError>
    ensures { OnOk result (line.new.items
        ≡ line.old.items ++ piece_text (gate_piece at refused)) }
{
    match refused {
        GateLine::Malformed => add_malformed(line, at),
        GateLine::Sessions { session } => add_sessions(line, at, session),
        GateLine::Expecting {
            session,
            expected,
            why,
        } => add_expecting(line, at, session, expected, why),
    }
}

fn print(alloc: Global, line: u32, refused: GateLine) -> Result<Vec<u8>, AllocError>
    ensures { IfOk result (λ text. text.items ≡ gate_line line refused) }
{
    let mut text = Vec::new(alloc);
    add_gate_line(&mut text, line, refused)?;
    Ok(text)
}

fn has_reason(value: &Value, reason: &str) -> bool
    ensures { result ≡ reason_is reason.now (view value.now) }
{
    has_whole(value, "line") && has_word(value, "reason", reason)
}

fn sessions_shape(value: &Value) -> bool
    ensures { result ≡ sessions_are (view value.now) }
{
    has_members(value, 5) && has_reason(value, "Sessions") && has_whole(value, "session")
}

fn expecting_shape(value: &Value, reason: &str) -> bool
    ensures { result ≡ expecting_is reason.now (view value.now) }
{
    has_members(value, 6)
        && has_reason(value, reason)
        && has_whole(value, "expected")
        && has_whole(value, "session")
}

fn has_shape(value: &Value, number: u64) -> bool
    ensures { result ≡ shape_is number (view value.now) }
{
    match number {
        15 => has_members(value, 4) && has_reason(value, "Malformed"),
        16 => expecting_shape(value, "Old"),
        17 => expecting_shape(value, "Ahead"),
        18 => expecting_shape(value, "Changed"),
        19 => sessions_shape(value),
        _ => false,
    }
}

pub(crate) fn session_at(value: &Value) -> Option<u32>
    ensures { result ≡ session_found (view value.now) }
{
    let session = natural_at(value, 1, u64::from(MAX_SESSION), "session")?;
    Some(session as u32)
}

fn expecting_from(value: &Value, why: Why) -> Option<GateLine>
    ensures { result ≡ expecting_found why (view value.now) }
{
    let session = session_at(value)?;
    let expected = natural_at(value, 1, u64::from(MAX_MESSAGE) + 1, "expected")? as u32;
    Some(GateLine::Expecting {
        session,
        expected,
        why,
    })
}

fn sessions_from(value: &Value) -> Option<GateLine>
    ensures { result ≡ option_map refused.Sessions (session_found (view value.now)) }
{
    let session = session_at(value)?;
    Some(GateLine::Sessions { session })
}

fn refused_from(value: &Value, number: u64) -> Option<GateLine>
    ensures { result ≡ refused_found number (view value.now) }
{
    match number {
        15 => Some(GateLine::Malformed),
        16 => expecting_from(value, Why::Old),
        17 => expecting_from(value, Why::Ahead),
        18 => expecting_from(value, Why::Changed),
        _ => sessions_from(value),
    }
}

impl TestedReply for GateLine {
    ghost tests = { gate_lines };

    fn has_shape(value: &Value, _word: &str) -> bool {
        has_shape(value, number_at(value, "number"))
    }

    fn has_numbers(_value: &Value, _word: &str) -> bool {
        true
    }

    fn reply_from(_alloc: Global, value: &Value, _word: &str) -> Result<Option<Self>, AllocError> {
        Ok(refused_from(value, number_at(value, "number")))
    }

    fn print(&self, alloc: Global, line: u32) -> Result<Vec<u8>, AllocError> {
        print(alloc, line, *self)
    }
}

// Reads a line of the gate by the value of its text.
pub(crate) fn read_gate_value(
    alloc: Global,
    text: &[u8],
    value: &Value,
) -> Result<(u32, GateLine), LineFault>
    ensures ok { IfOk result (λ p. value_by gate_tests text.now (view value.now)
        ≡ Ok (p.0, p.1)) }
    ensures err { IfErr result (λ e. (e ≡ Memory)
        ⊎ (value_by gate_tests text.now (view value.now) ≡ Err e)) }
{
    read_value::<GateLine>(alloc, text, value)
}
