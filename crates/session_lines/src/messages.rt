//! What a line says.
ghost use Rattle.std.specs.Prelude.{◌≡◌, ◌≤◌, ◌+◌, IfSome, IsTrue};
ghost use Rattle.std.specs.Option.{option_map};
ghost use Rattle.session_gate.specs.Bodies.{is_body};
ghost use Rattle.session_gate.specs.Gate.{IsSession, IsNumber, message_of};
ghost use Rattle.session_lines.specs.Messages.{at_comma, number_to, message_in};
ghost use Rattle.session_lines.specs.Questions.{question_in};

use command_text::{NumberRead, number};
use limits::{MAX_MESSAGE, MAX_SESSION};
use memchr::memchr;
use session_gate::is_body;

/// A message of a session.
#[derive(Clone, Copy, Debug)]
pub struct Sent<'a> {
    /// The number of the session.
    pub session: u32,
    /// Its number in the session.
    pub number: u32,
    /// What it asks for.
    pub body: &'a [u8],
}

// The bytes before the first comma, and those behind it.
fn at_comma(bytes: &[u8]) -> Option<(&[u8], &[u8])>
    ensures { option_map (λ parts. (parts.0.now, parts.1.now)) result ≡ at_comma bytes.now }
{
    let place = memchr(b',', bytes)?;
    Some((&bytes[..place], &bytes[place + 1..]))
}

// The value of a number text from 1 to a limit.
fn number_to(limit: u32, field: &[u8]) -> Option<u32>
    ensures value { result ≡ number_to limit field.now }
    ensures within { IfSome result (λ value. (1 ≤ value) × (value ≤ limit)) }
{
    match number(field, 1, i64::from(limit)) {
        NumberRead::Value(value) => Some(value as u32),
        NumberRead::NotNumber | NumberRead::Outside => None,
    }
}

/// What a line says as a message: SESSION,NUMBER,BODY, split at its first two commas. `None` where
/// it is none.
pub fn message(line: &[u8]) -> Option<Sent<'_>>
    ensures says { option_map (λ m. message_of m.session m.number m.body.now) result
        ≡ message_in line.now }
    ensures within { IfSome result (λ m.
        IsSession m.session × IsNumber m.number × IsTrue (is_body m.body.now)) }
{
    let (session, rest) = at_comma(line)?;
    let (number, body) = at_comma(rest)?;
    let session = number_to(MAX_SESSION, session)?;
    let number = number_to(MAX_MESSAGE, number)?;
    if !is_body(body) {
        return None;
    }
    Some(Sent {
        session,
        number,
        body,
    })
}

/// What a session asks.
#[derive(Clone, Copy, Debug)]
pub struct Asked<'a> {
    /// The number of the session.
    pub session: u32,
    /// What it asks.
    pub body: &'a [u8],
}

/// What a line says as a question: SESSION,BODY, split at its first comma. `None` where it is none.
pub fn question(line: &[u8]) -> Option<Asked<'_>>
    ensures says { option_map (λ q. (q.session, q.body.now)) result ≡ question_in line.now }
    ensures within { IfSome result (λ q. IsTrue (is_body q.body.now)) }
{
    let (session, body) = at_comma(line)?;
    let session = number_to(MAX_SESSION, session)?;
    if !is_body(body) {
        return None;
    }
    Some(Asked { session, body })
}
