// The answers to an input that is there whole.
ghost use Rattle.std.specs.Prelude.{◌≢◌, ◌≤◌, Err, length, IsErrOf, OnErr, OnOk};
ghost use Rattle.std.specs.Io.KnownBytes.{Appends};
ghost use Rattle.byte_streams.specs.Faults.{Rose};
ghost use Rattle.byte_streams.specs.Writes.{AppendsFront};
ghost use Rattle.limits.specs.declared.TheConstants.{MAX_BYTES};
ghost use Rattle.live_lines.specs.Output.{output_of};

use crate::answers::LineSteps;
use crate::live::Live;
use byte_streams::{IoStop, Sink};
use std::alloc::Global;

/// Answers all lines of an input, of which none is too long where it is at most as long as a line
/// may be. The way of answering stands before the first line; the mark at the start of the input is
/// skipped, or is a part of the first line. The replies are written together, each time that they
/// fill a buffer.
///
/// `WriteFault` at the first fault of the sink, and `Memory` where there was none. A front of the
/// output was then written.
pub fn answer_whole<A: LineSteps + Drop, K: Sink>(
    alloc: Global,
    answers: A,
    skips_mark: bool,
    input: &[u8],
    sink: &mut K,
) -> Result<(), IoStop>
    requires first { A.stands 1 answers }
    requires few { length input.now ≤ MAX_BYTES }
    ensures ok { OnOk result (Appends (K.written sink.old) (K.written sink.new)
        (output_of A.step skips_mark answers input.now)) }
    ensures front { OnErr result (AppendsFront (K.written sink.old) (K.written sink.new)
        (output_of A.step skips_mark answers input.now)) }
    ensures fault { IsErrOf result IoStop.WriteFault →
        Rose (K.faults sink.old) (K.faults sink.new) }
    ensures no_read_fault { result ≢ Err IoStop.ReadFault }
    ensures not_too_long { result ≢ Err IoStop.TooLong }
{
    let mut live = Live::new(alloc, answers, skips_mark);
    live.take(alloc, input, sink)?;
    live.finish(alloc, sink)
}
