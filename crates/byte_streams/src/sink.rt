// Where bytes go.
ghost use Rattle.std.specs.Prelude.{◌≡◌, ◌≤◌, ◌<◌, List, ℕ, Option, length, IfErr, OnOk, OnErr};
ghost use Rattle.std.specs.Io.KnownBytes.{Appends};
ghost use Rattle.byte_streams.specs.Faults.{Rose, last_count};
ghost use Rattle.byte_streams.specs.Writes.{TookWithin, Writes, WriteCause, AppendsFront};

use crate::stop::IoStop;

/// What one write to a sink answers.
#[derive(Clone, Copy, Debug, PartialEq, Eq)]
pub enum WriteAnswer {
    /// So many bytes of the front of the piece, at least 1, were appended.
    Took(usize),
    /// The write failed, and appended nothing.
    Failed,
}

/// A sink of bytes that counts its faults.
pub trait Sink {
    /// The bytes written, where it tells them.
    ghost written: { Self → Option (List ℕ) };

    /// The count of faults.
    ghost faults: { Self → ℕ };

    /// Appends a front of the piece.
    fn write(&mut self, piece: &[u8]) -> WriteAnswer
        requires { 0 < length piece.now }
        ensures fits { TookWithin result (length piece.now) }
        ensures bytes { Writes (written self.old) (written self.new) result piece.now }
        ensures cause { WriteCause (faults self.old) (faults self.new) result };

    /// At any time the count of faults is at most 2^64 - 1.
    ghost faults_stop: { (s : Self) → faults s ≤ last_count };
}

/// Appends the whole piece, or stops at the first fault, where a front of it was appended.
pub fn write_all<K: Sink>(sink: &mut K, piece: &[u8]) -> Result<(), IoStop>
    ensures ok { OnOk result (Appends (K.written sink.old) (K.written sink.new) piece.now) }
    ensures calm { OnOk result (K.faults sink.new ≡ K.faults sink.old) }

    ensures only { IfErr result (λ stop. stop ≡ IoStop.WriteFault) }
    ensures fault { OnErr result (Rose (K.faults sink.old) (K.faults sink.new)) }
    ensures front { OnErr result
        (AppendsFront (K.written sink.old) (K.written sink.new) piece.now) }

    ensures later { K.faults sink.old ≤ K.faults sink.new }
{
    let mut sent = 0;
    while sent < piece.len() {
        match sink.write(&piece[sent..]) {
            WriteAnswer::Took(count) => sent += count,
            WriteAnswer::Failed => return Err(IoStop::WriteFault),
        }
    }
    Ok(())
}
