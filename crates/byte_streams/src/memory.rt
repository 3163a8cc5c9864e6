// A source and a sink in memory, whose calls fail by a list.
ghost use Rattle.std.specs.Prelude.{◌≡◌, ◌-◌, ◌≤◌, ◌<◌, ◌↔◌, ◌⊎◌, Some, None, [], length, take, drop, min, IfOk, Contains, IsTrue, vec_capacity};
ghost use Rattle.std.proofs.Math.Nat.{min-le_right};
ghost use Rattle.byte_streams.specs.Faults.{as_count, last_count, raised_by};
ghost use Rattle.byte_streams.specs.InMemory.{SourceInMemory, SinkInMemory};
ghost use Rattle.byte_streams.specs.Reads.{GotWithin, Takes, taken_after, ReadCause, WasReadAt};
ghost use Rattle.byte_streams.specs.Writes.{TookWithin, Writes, WriteCause};

use crate::{ReadAnswer, Sink, Source, WriteAnswer};
use std::alloc::{AllocError, Global};
use std::marker::Model;

// Whether the call of this number is one of those that fail.
fn is_failing(failing: &[u32], call: u64) -> bool
    ensures { IsTrue result ↔ Contains failing.now call }
{
    failing.iter().any(|n| u64::from(*n) == call)
}

// Copies the first bytes to the front of the buffer.
pub(crate) fn copy_front(buf: &mut [u8], bytes: &[u8], count: usize)
    requires buf { count ≤ length buf.old }
    requires bytes { count ≤ length bytes.now }
    ensures { take count buf.new ≡ take count bytes.now }
{
    buf[..count].copy_from_slice(&bytes[..count]);
}

/// Gives its bytes in pieces. The calls whose numbers, from 1, stand in a list fail.
#[derive(Drop)]
pub struct MemSource {
    bytes: Vec<u8>,
    given: usize,
    piece: usize,
    failing: Vec<u32>,
    calls: u64,
    taken: u64,
    faults: u64,
}

impl Model for MemSource {
    ghost Value = { SourceInMemory };

    ghost view = { λ s. record {
      left = drop s.given s.bytes.items;
      piece = s.piece;
      failing = s.failing.items;
      calls = s.calls;
      taken = s.taken;
      faults = s.faults;
    } };

    ghost invariant = { λ s. (s.given ≤ length s.bytes.items) × (1 ≤ s.piece) };
}

impl MemSource {
    /// A source of these bytes that gives at most `piece` of them in a read.
    pub fn new(bytes: Vec<u8>, piece: usize, failing: Vec<u32>) -> Self
        requires { 1 ≤ piece }
        ensures { result ≡ record {
          left = bytes.items;
          piece = piece;
          failing = failing.items;
          calls = 0;
          taken = 0;
          faults = 0;
        } }
    {
        MemSource {
            bytes,
            given: 0,
            piece,
            failing,
            calls: 0,
            taken: 0,
            faults: 0,
        }
    }
}

impl Source for MemSource {
    ghost left = { λ s. Some s.left };

    ghost last_read = { λ _. None };

    ghost taken = { λ s. as_count s.taken };

    ghost faults = { λ s. as_count s.faults };

    ghost taken_stops = { λ s. min-le_right s.taken last_count };

    ghost faults_stop = { λ s. min-le_right s.faults last_count };

    fn read<K: Sink>(&mut self, _sink: &K, buf: &mut [u8]) -> ReadAnswer
        requires { 0 < length buf.old }
        ensures fits { GotWithin result (length buf.new) }
        ensures bytes { Takes (Some self.old.left) (Some self.new.left) result buf.new }
        ensures count { as_count self.new.taken ≡ taken_after (as_count self.old.taken) result }
        ensures cause { ReadCause (as_count self.old.faults) (as_count self.new.faults) result }
        ensures last { WasReadAt None (Some self.old.left) (K.written _sink.now) }

        ensures piece { GotWithin result self.old.piece }
        ensures call { self.new.calls ≡ raised_by self.old.calls 1 }
        ensures fails { result ≡ ReadAnswer.Failed ↔ Contains self.old.failing self.new.calls }
        ensures same_piece { self.new.piece ≡ self.old.piece }
        ensures same_failing { self.new.failing ≡ self.old.failing }
    {
        self.calls = self.calls.saturating_add(1);
        let calls = self.calls;
        if is_failing(&self.failing, calls) {
            self.faults = self.faults.saturating_add(1);
            return ReadAnswer::Failed;
        }
        let left = self.bytes.len() - self.given;
        if left == 0 {
            return ReadAnswer::End;
        }
        let count = buf.len().min(self.piece).min(left);
        copy_front(buf, &self.bytes[self.given..], count);
        self.given += count;
        self.taken = self.taken.saturating_add(count as u64);
        ReadAnswer::Got(count)
    }
}

/// Keeps what is written, in the room that it was made with. The calls whose numbers stand in a
/// list fail.
#[derive(Drop)]
pub struct MemSink {
    bytes: Vec<u8>,
    room: usize,
    piece: usize,
    failing: Vec<u32>,
    calls: u64,
    faults: u64,
}

impl Model for MemSink {
    ghost Value = { SinkInMemory };

    ghost view = { λ s. record {
      written = s.bytes.items;
      room = s.room;
      piece = s.piece;
      failing = s.failing.items;
      calls = s.calls;
      faults = s.faults;
    } };

    ghost invariant = { λ s.
        (length s.bytes.items ≤ s.room) × (s.room ≤ vec_capacity s.bytes) × (1 ≤ s.piece) };
}

impl MemSink {
    /// An empty sink that keeps at most `room` bytes and takes at most `piece` of them in a write.
    ///
    /// All its memory is taken here, and `write` takes none.
    pub fn new(
        alloc: Global,
        room: usize,
        piece: usize,
        failing: Vec<u32>,
    ) -> Result<Self, AllocError>
        requires { 1 ≤ piece }
        ensures { IfOk result (λ s. s ≡ record {
          written = [];
          room = room;
          piece = piece;
          failing = failing.items;
          calls = 0;
          faults = 0;
        }) }
    {
        let bytes = Vec::with_capacity(alloc, room)?;
        Ok(MemSink {
            bytes,
            room,
            piece,
            failing,
            calls: 0,
            faults: 0,
        })
    }

    /// What was written so far.
    pub fn written(&self) -> &[u8]
        ensures { result.now ≡ self.now.written }
    {
        &self.bytes
    }
}

impl Sink for MemSink {
    ghost written = { λ s. Some s.written };

    ghost faults = { λ s. as_count s.faults };

    ghost faults_stop = { λ s. min-le_right s.faults last_count };

    fn write(&mut self, piece: &[u8]) -> WriteAnswer
        requires { 0 < length piece.now }
        ensures fits { TookWithin result (length piece.now) }
        ensures bytes { Writes (Some self.old.written) (Some self.new.written) result piece.now }
        ensures cause { WriteCause (as_count self.old.faults) (as_count self.new.faults) result }

        ensures piece { TookWithin result self.old.piece }
        ensures room { TookWithin result (self.old.room - length self.old.written) }
        ensures call { self.new.calls ≡ raised_by self.old.calls 1 }
        ensures fails { result ≡ WriteAnswer.Failed
            ↔ Contains self.old.failing self.new.calls ⊎ (self.old.room ≤ length self.old.written) }
        ensures same_room { self.new.room ≡ self.old.room }
        ensures same_piece { self.new.piece ≡ self.old.piece }
        ensures same_failing { self.new.failing ≡ self.old.failing }
    {
        self.calls = self.calls.saturating_add(1);
        let calls = self.calls;
        let room = self.room - self.bytes.len();
        if room == 0 || is_failing(&self.failing, calls) {
            self.faults = self.faults.saturating_add(1);
            return WriteAnswer::Failed;
        }
        let count = piece.len().min(self.piece).min(room);
        self.bytes.extend_from_slice(&piece[..count]).unwrap();
        WriteAnswer::Took(count)
    }
}
