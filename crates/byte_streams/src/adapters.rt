// The real source and sink, over any reader and writer.
ghost use Rattle.std.specs.Prelude.{◌≡◌, None};
ghost use Rattle.std.proofs.Math.Nat.{min-le_right};
ghost use Rattle.byte_streams.specs.Faults.{as_count, last_count};

use crate::{ReadAnswer, Sink, Source, WriteAnswer};
use std::io::{Read, Write};

/// Reads from a reader, and counts its failures and the bytes taken.
///
/// It tells the bytes left where the reader does; standard input tells none.
#[derive(Drop)]
pub struct StdSource<R> {
    inner: R,
    faults: u64,
    taken: u64,
}

impl<R: Read> StdSource<R> {
    /// A source over a reader that was not read so far.
    pub fn new(inner: R) -> StdSource<R>
        ensures left { ⟦<StdSource<R> as Source>⟧.left result ≡ R.remaining inner }
        ensures taken { ⟦<StdSource<R> as Source>⟧.taken result ≡ 0 }
        ensures faults { ⟦<StdSource<R> as Source>⟧.faults result ≡ 0 }
    {
        StdSource {
            inner,
            faults: 0,
            taken: 0,
        }
    }
}

impl<R: Read> Source for StdSource<R> {
    ghost left = { λ s. R.remaining s.inner };

    ghost last_read = { λ _. None };

    ghost taken = { λ s. as_count s.taken };

    ghost faults = { λ s. as_count s.faults };

    ghost taken_stops = { λ s. min-le_right s.taken last_count };

    ghost faults_stop = { λ s. min-le_right s.faults last_count };

    fn read<K: Sink>(&mut self, _sink: &K, buf: &mut [u8]) -> ReadAnswer {
        match self.inner.read(buf) {
            Ok(0) => ReadAnswer::End,
            Ok(count) => {
                self.taken = self.taken.saturating_add(count as u64);
                ReadAnswer::Got(count)
            }
            Err(_) => {
                self.faults = self.faults.saturating_add(1);
                ReadAnswer::Failed
            }
        }
    }
}

/// Writes to a writer, and counts its failures. A write that takes nothing is a failure.
///
/// It tells the bytes written where the writer does; standard output tells none.
#[derive(Drop)]
pub struct StdSink<W> {
    inner: W,
    faults: u64,
}

impl<W: Write> StdSink<W> {
    /// A sink over a writer.
    pub fn new(inner: W) -> StdSink<W>
        ensures written { ⟦<StdSink<W> as Sink>⟧.written result ≡ W.contents inner }
        ensures faults { ⟦<StdSink<W> as Sink>⟧.faults result ≡ 0 }
    {
        StdSink { inner, faults: 0 }
    }
}

impl<W: Write> Sink for StdSink<W> {
    ghost written = { λ s. W.contents s.inner };

    ghost faults = { λ s. as_count s.faults };

    ghost faults_stop = { λ s. min-le_right s.faults last_count };

    fn write(&mut self, piece: &[u8]) -> WriteAnswer {
        match self.inner.write(piece) {
            Ok(0) | Err(_) => {
                self.faults = self.faults.saturating_add(1);
                WriteAnswer::Failed
            }
            Ok(count) => WriteAnswer::Took(count),
        }
    }
}
