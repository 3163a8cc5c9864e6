//! The answers to the messages of an input.
ghost use Rattle.std.specs.Prelude.{◌≢◌, ◌≤◌, Err, length, OnOk, OnErr, IsErrOf};
ghost use Rattle.std.specs.Io.KnownBytes.{Appends};
ghost use Rattle.byte_streams.specs.Faults.{Rose};
ghost use Rattle.byte_streams.specs.Writes.{AppendsFront};
ghost use Rattle.exchange_sessions.specs.Answers.{sessions_output};
ghost use Rattle.limits.specs.declared.TheConstants.{MAX_BYTES};

use crate::run_lines::RunLines;
use byte_streams::{IoStop, Sink};
use live_lines::answer_whole;
use session_lines::{AnySession, SessionLines};
use std::alloc::Global;

/// Answers the messages of an input to one new exchange.
///
/// A line is a message `SESSION,NUMBER,BODY` or none, and has one line as its answer. Lines are
/// told apart by line feeds and counted from 1; one carriage return at the end of a line is taken
/// away, and a line that is then empty has no answer. No bytes are skipped at the start of the
/// input.
///
/// `WriteFault` at the first fault of the sink, and `Memory` where there was none. A front of the
/// output was then written.
pub fn answer_messages<K: Sink>(alloc: Global, input: &[u8], sink: &mut K) -> Result<(), IoStop>
    requires { length input.now ≤ MAX_BYTES }
    ensures ok { OnOk result
        (Appends (K.written sink.old) (K.written sink.new) (sessions_output input.now)) }
    ensures front { OnErr result
        (AppendsFront (K.written sink.old) (K.written sink.new) (sessions_output input.now)) }
    ensures fault { IsErrOf result IoStop.WriteFault →
        Rose (K.faults sink.old) (K.faults sink.new) }
    ensures no_read_fault { result ≢ Err IoStop.ReadFault }
    ensures not_too_long { result ≢ Err IoStop.TooLong }
{
    let lines = AnySession::new(RunLines::new(alloc));
    let messages = SessionLines::new(alloc, lines);
    answer_whole(alloc, messages, false, input, sink)
}
