// A source and a sink that never fail.
ghost use Rattle.std.specs.Prelude.{◌≡◌, ◌≤◌, ◌<◌, Some, None, IfSome, drop, length};
ghost use Rattle.std.proofs.Common.{lit≤};
ghost use Rattle.std.proofs.Math.Nat.{min-le_right};
ghost use Rattle.byte_streams.specs.Faults.{as_count, last_count};
ghost use Rattle.byte_streams.specs.Reads.{GotWithin, Takes, taken_after, ReadCause, WasReadAt, as_many_as_fit};
ghost use Rattle.byte_streams.specs.Writes.{TookWithin, Writes, WriteCause};

use crate::memory::copy_front;
use crate::{ReadAnswer, Sink, Source, WriteAnswer};

/// Tells its bytes, and gives as many as fit in each read.
#[derive(Drop)]
pub struct SureSource {
    bytes: Vec<u8>,
    given: usize,
    taken: u64,
    ghost within: { given ≤ length bytes.items },
}

impl SureSource {
    /// A source of these bytes.
    pub fn new(bytes: Vec<u8>) -> Self
        ensures left { ⟦<SureSource as Source>⟧.left result ≡ Some bytes.items }
        ensures taken { ⟦<SureSource as Source>⟧.taken result ≡ 0 }
    {
        SureSource {
            bytes,
            given: 0,
            taken: 0,
        }
    }
}

impl Source for SureSource {
    ghost left = { λ s. Some (drop s.given s.bytes.items) };

    ghost last_read = { λ _. None };

    ghost taken = { λ s. as_count s.taken };

    ghost faults = { λ _. 0 };

    ghost taken_stops = { λ s. min-le_right s.taken last_count };

    ghost faults_stop = { λ _. lit≤ tt };

    fn read<K: Sink>(&mut self, _sink: &K, buf: &mut [u8]) -> ReadAnswer
        requires { 0 < length buf.old }
        ensures fits { GotWithin result (length buf.new) }
        ensures bytes { Takes
            (⟦<SureSource as Source>⟧.left self.old)
            (⟦<SureSource as Source>⟧.left self.new) result buf.new }
        ensures count { ⟦<SureSource as Source>⟧.taken self.new
            ≡ taken_after (⟦<SureSource as Source>⟧.taken self.old) result }
        ensures cause { ReadCause 0 0 result }
        ensures last { WasReadAt None (⟦<SureSource as Source>⟧.left self.old) (K.written _sink.now) }

        ensures whole { IfSome (⟦<SureSource as Source>⟧.left self.old) (λ left.
            result ≡ as_many_as_fit (length buf.old) left) }
    {
        let left = self.bytes.len() - self.given;
        if left == 0 {
            return ReadAnswer::End;
        }
        let count = buf.len().min(left);
        copy_front(buf, &self.bytes[self.given..], count);
        self.given += count;
        self.taken = self.taken.saturating_add(count as u64);
        ReadAnswer::Got(count)
    }
}

/// Takes every piece whole, keeps none of it and tells nothing.
#[derive(Clone, Copy, Debug, Default)]
pub struct SureSink;

impl SureSink {
    /// A sink to which nothing was written.
    pub fn new() -> Self {
        SureSink
    }
}

impl Sink for SureSink {
    ghost written = { λ _. None };

    ghost faults = { λ _. 0 };

    ghost faults_stop = { λ _. lit≤ tt };

    fn write(&mut self, piece: &[u8]) -> WriteAnswer
        requires { 0 < length piece.now }
        ensures fits { TookWithin result (length piece.now) }
        ensures bytes { Writes None None result piece.now }
        ensures cause { WriteCause 0 0 result }

        ensures whole { result ≡ WriteAnswer.Took (length piece.now) }
    {
        WriteAnswer::Took(piece.len())
    }
}
