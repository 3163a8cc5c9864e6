// The word `demo`: a made text is run, and its summary written.
ghost use Rattle.std.specs.Prelude.{◌≢◌, ◌≤◌, Err, OnOk, OnErr, IsErrOf};
ghost use Rattle.std.specs.Io.KnownBytes.{Appends};
ghost use Rattle.demo_run.specs.Demo.{demo_output};
ghost use Rattle.byte_streams.specs.Faults.{Rose};
ghost use Rattle.byte_streams.specs.Writes.{AppendsFront};
ghost use Rattle.program_words.specs.declared.requests.TheConstants.{MAX_DEMO_ORDERS};

use byte_streams::{IoStop, Sink, write_all};
use demo_run::demo;
use std::alloc::Global;

// Writes the summary of the demo of a seed and a number of orders.
pub(crate) fn write_demo<K: Sink>(
    alloc: Global,
    seed: u32,
    count: u32,
    sink: &mut K,
) -> Result<(), IoStop>
    requires { (1 ≤ count) × (count ≤ MAX_DEMO_ORDERS) }
    ensures ok { OnOk result
        (Appends (K.written sink.old) (K.written sink.new) (demo_output seed count)) }
    ensures front { OnErr result
        (AppendsFront (K.written sink.old) (K.written sink.new) (demo_output seed count)) }
    ensures fault { IsErrOf result IoStop.WriteFault →
        Rose (K.faults sink.old) (K.faults sink.new) }
    ensures no_read_fault { result ≢ Err IoStop.ReadFault }
    ensures not_too_long { result ≢ Err IoStop.TooLong }
{
    let summary = demo(alloc, seed, count)?;
    write_all(sink, summary.as_bytes())?;
    Ok(())
}
