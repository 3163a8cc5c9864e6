// Where bytes come from.
ghost use Rattle.std.specs.Prelude.{◌≡◌, ◌≢◌, ◌+◌, ◌≤◌, ◌<◌, List, ℕ, Option, Some, Err, length, IfOk, IfSome, OnOk, IsErrOf, []};
ghost use Rattle.byte_streams.specs.Faults.{Rose, last_count, raised_by};
ghost use Rattle.byte_streams.specs.Reads.{GotWithin, LastRead, Takes, TakesUpTo, taken_after, ReadCause, WasReadAt};

use crate::sink::Sink;
use crate::stop::IoStop;
use std::alloc::Global;

/// What one read of a source answers.
#[derive(Clone, Copy, Debug, PartialEq, Eq)]
pub enum ReadAnswer {
    /// So many bytes, at least 1, stand at the front of the buffer.
    Got(usize),
    /// No byte is left.
    End,
    /// The read failed, and took no byte.
    Failed,
}

/// A source of bytes that counts its faults.
pub trait Source {
    /// The bytes that are left, where it tells them.
    ghost left: { Self → Option (List ℕ) };

    /// The count of bytes taken.
    ghost taken: { Self → ℕ };

    /// The count of faults.
    ghost faults: { Self → ℕ };

    /// How it stood when it was last read, where it tells that.
    ghost last_read: { Self → Option LastRead };

    /// Takes some of the bytes that are left into the front of the buffer. The sink is handed so
    /// that it may tell what had been written by then.
    fn read<K: Sink>(&mut self, sink: &K, buf: &mut [u8]) -> ReadAnswer
        requires { 0 < length buf.old }
        ensures fits { GotWithin result (length buf.new) }
        ensures bytes { Takes (left self.old) (left self.new) result buf.new }
        ensures count { taken self.new ≡ taken_after (taken self.old) result }
        ensures cause { ReadCause (faults self.old) (faults self.new) result }
        ensures last { WasReadAt (last_read self.new) (left self.old) (K.written sink.now) };

    /// At any time the count of bytes taken is at most 2^64 - 1.
    ghost taken_stops: { (s : Self) → taken s ≤ last_count };

    /// At any time the count of faults is at most 2^64 - 1.
    ghost faults_stop: { (s : Self) → faults s ≤ last_count };
}

/// Reads all bytes that are left, of which there may be `limit`.
///
/// `TooLong` comes only where more bytes than `limit` were left and no fault came before these were
/// read, and `ReadFault` only where the count of faults rose, before more bytes than `limit` were
/// taken. Either may have taken bytes of the source.
pub fn read_all<S: Source, K: Sink>(
    alloc: Global,
    source: &mut S,
    sink: &K,
    limit: usize,
) -> Result<Vec<u8>, IoStop>
    requires { limit ≤ 268435456 }
    ensures all { IfOk result (λ bytes. IfSome (S.left source.old) (λ left.
        (bytes.items ≡ left) × (S.left source.new ≡ Some []))) }
    ensures within { IfOk result (λ bytes. length bytes.items ≤ limit) }
    ensures calm { OnOk result (S.faults source.new ≡ S.faults source.old) }

    ensures fault { IsErrOf result IoStop.ReadFault →
        Rose (S.faults source.old) (S.faults source.new) }
    ensures in_time { IsErrOf result IoStop.ReadFault →
        (S.taken source.new ≤ S.taken source.old + limit)
        × TakesUpTo (S.left source.old) (S.left source.new) limit }
    ensures too_long { IsErrOf result IoStop.TooLong →
        IfSome (S.left source.old) (λ left. limit < length left) }
    ensures no_fault_before { IsErrOf result IoStop.TooLong →
        S.faults source.new ≡ S.faults source.old }
    ensures too_many { IsErrOf result IoStop.TooLong →
        raised_by (S.taken source.old) (limit + 1) ≤ S.taken source.new }

    ensures no_write_fault { result ≢ Err IoStop.WriteFault }
    ensures later { S.faults source.old ≤ S.faults source.new }

    // Until all is read nothing is written.
    ensures silent { IfSome (S.last_read source.new) (λ last. last.written ≡ K.written sink.now) }
{
    let mut bytes = Vec::new(alloc);
    let mut buf = [0u8; 4096];
    while bytes.len() <= limit {
        match source.read(sink, &mut buf) {
            ReadAnswer::Got(count) => bytes.extend_from_slice(&buf[..count])?,
            ReadAnswer::End => return Ok(bytes),
            ReadAnswer::Failed => return Err(IoStop::ReadFault),
        }
    }
    Err(IoStop::TooLong)
}
