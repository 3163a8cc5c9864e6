// The answers to the lines that bytes complete.
ghost use Rattle.std.specs.Prelude.{◌≡◌, ◌≤◌, ◌<◌, ◌++◌, ℕ, List, length, IfErr, IfOk, OnErr, OnOk};
ghost use Rattle.std.specs.Io.KnownBytes.{Appends};
ghost use Rattle.byte_streams.specs.Faults.{Rose};
ghost use Rattle.byte_streams.specs.Writes.{AppendsFront};
ghost use Rattle.live_lines.specs.Open.{IsOneLine};
ghost use Rattle.limits.specs.declared.TheConstants.{MAX_LINES};
ghost use Rattle.live_lines.specs.Turns.{AddsAnswer, Turned};

use crate::answers::LineAnswers;
use crate::open_line::OpenLine;
use byte_streams::{IoStop, Sink, write_all};
use limits::MAX_LINES;
use memchr::memchr;
use std::alloc::{AllocError, Global};

// Replies that are so many bytes, or more, are written.
const FULL: usize = 65_536;

// Adds the answer to a line to the replies.
pub(crate) fn add_answer<A: LineAnswers>(
    alloc: Global,
    answers: &mut A,
    line: &OpenLine,
    replies: &mut Vec<u8>,
) -> Result<(), AllocError>
    requires few { 0 < length line.now.rest → line.now.number ≤ MAX_LINES }
    requires next { A.stands line.now.number answers.old }
    ensures { OnOk result (AddsAnswer A.answers answers.old line.now answers.new replies.old.items
        replies.new.items) }
{
    let text = line.text();
    if text.is_empty() {
        return Ok(());
    }
    let reply = answers.answer(alloc, line.number(), text)?;
    replies.extend_from_slice(&reply)
}

// Takes bytes up to the first line feed, and adds the answer to the line that it ends. How many
// were taken; `None` where they tell a line that is too long.
pub(crate) fn take_line<A: LineAnswers>(
    alloc: Global,
    answers: &mut A,
    line: &mut OpenLine,
    bytes: &[u8],
    replies: &mut Vec<u8>,
) -> Result<Option<usize>, AllocError>
    requires some { 0 < length bytes.now }
    requires one_line { IsOneLine line.old.rest }
    requires next { A.stands line.old.number answers.old }
    ensures { IfOk result (λ used. Turned A.answers answers.old line.old answers.new line.new
        bytes.now replies.old.items replies.new.items used) }
{
    if u64::from(line.number()) > MAX_LINES {
        return Ok(None);
    }
    match memchr(b'\n', bytes) {
        Some(end) => {
            line.add(&bytes[..end])?;
            if !line.fits() {
                return Ok(None);
            }
            add_answer(alloc, answers, line, replies)?;
            line.end();
            Ok(Some(end + 1))
        }
        None => {
            line.add(bytes)?;
            if !line.fits() {
                return Ok(None);
            }
            Ok(Some(bytes.len()))
        }
    }
}

// Writes the replies where they fill a buffer, and takes them out.
pub(crate) fn write_full<K: Sink>(replies: &mut Vec<u8>, sink: &mut K) -> Result<(), IoStop>
    ensures ok { OnOk result ((text : List ℕ) × (replies.old.items ≡ text ++ replies.new.items)
        × Appends (K.written sink.old) (K.written sink.new) text) }
    ensures calm { OnOk result (K.faults sink.new ≡ K.faults sink.old) }
    ensures only { IfErr result (λ stop. stop ≡ IoStop.WriteFault) }
    ensures fault { OnErr result (Rose (K.faults sink.old) (K.faults sink.new)) }
    ensures front { OnErr result
        (AppendsFront (K.written sink.old) (K.written sink.new) replies.old.items) }
{
    if replies.len() < FULL {
        return Ok(());
    }
    write_all(sink, replies)?;
    replies.clear();
    Ok(())
}
