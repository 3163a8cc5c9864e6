// The lines of an input that comes piece by piece.
ghost use Rattle.std.specs.Prelude.{◌≡◌, ◌≢◌, ℕ, List, Err, OnErr, OnOk, IsErrOf};
ghost use Rattle.std.specs.Io.KnownBytes.{Appends};
ghost use Rattle.byte_streams.specs.Faults.{Rose};
ghost use Rattle.byte_streams.specs.Writes.{AppendsFront};
ghost use Rattle.live_lines.specs.Open.{new_open};
ghost use Rattle.live_lines.specs.Taken.{Completes, IsOpenWithin, Stops, Took};
ghost use Rattle.live_lines.specs.Turns.{BeganLast, WroteLast};

use crate::answering::{add_answer, take_line, write_full};
use crate::answers::LineAnswers;
use crate::open_line::OpenLine;
use byte_streams::{IoStop, Sink, write_all};
use std::alloc::Global;

/// A way of answering lines, and the line that has not ended yet.
#[derive(Drop)]
pub struct Live<A> {
    pub(crate) answers: A,
    pub(crate) line: OpenLine,
}

impl<A: LineAnswers> Live<A> {
    /// Before the first byte of an input, whose mark at the start is skipped or is a part of the
    /// first line. Takes no memory.
    pub fn new(alloc: Global, answers: A, skips_mark: bool) -> Self
        ensures answers { result.answers ≡ answers }
        ensures line { result.line ≡ new_open skips_mark }
        ensures within { IsOpenWithin result.line }
    {
        Live {
            answers,
            line: OpenLine::new(alloc, skips_mark),
        }
    }

    /// Answers each line that the piece completes, and keeps what is behind them. At `Ok` all is
    /// written.
    ///
    /// The replies are written together where they do not fill a buffer, and else at each time that
    /// they do.
    pub fn take<K: Sink>(&mut self, alloc: Global, piece: &[u8], sink: &mut K) -> Result<(), IoStop>
        requires within { IsOpenWithin self.old.line }
        requires next { A.stands self.old.line.number self.old.answers }
        ensures ok { OnOk result ((text : List ℕ)
            × Appends (K.written sink.old) (K.written sink.new) text
            × Took A.answers self.old.answers self.old.line self.new.answers self.new.line
            piece.now text) }
        ensures calm { OnOk result (K.faults sink.new ≡ K.faults sink.old) }

        ensures no_read_fault { result ≢ Err IoStop.ReadFault }
        ensures too_long { IsErrOf result IoStop.TooLong → (text : List ℕ)
            × Appends (K.written sink.old) (K.written sink.new) text
            × Stops A.answers self.old.answers self.old.line piece.now text }
        ensures fault { IsErrOf result IoStop.WriteFault →
            Rose (K.faults sink.old) (K.faults sink.new) }
        ensures front { OnErr result ((text : List ℕ)
            × AppendsFront (K.written sink.old) (K.written sink.new) text
            × Completes A.answers self.old.answers self.old.line piece.now text) }
    {
        let mut replies = Vec::new(alloc);
        let mut start = 0;
        while start < piece.len() {
            let rest = &piece[start..];
            let taken = take_line(alloc, &mut self.answers, &mut self.line, rest, &mut replies)?;
            let Some(used) = taken else {
                write_all(sink, &replies)?;
                return Err(IoStop::TooLong);
            };
            start += used;
            write_full(&mut replies, sink)?;
        }
        write_all(sink, &replies)?;
        Ok(())
    }

    /// Answers the line that is left at the end of the input.
    pub fn finish<K: Sink>(&mut self, alloc: Global, sink: &mut K) -> Result<(), IoStop>
        requires within { IsOpenWithin self.old.line }
        requires next { A.stands self.old.line.number self.old.answers }
        ensures ok { OnOk result (WroteLast A.answers self.old.answers self.old.line
            (K.written sink.old) (K.written sink.new)) }
        ensures calm { OnOk result (K.faults sink.new ≡ K.faults sink.old) }

        ensures no_read_fault { result ≢ Err IoStop.ReadFault }
        ensures not_too_long { result ≢ Err IoStop.TooLong }
        ensures fault { IsErrOf result IoStop.WriteFault →
            Rose (K.faults sink.old) (K.faults sink.new) }
        ensures front { OnErr result (BeganLast A.answers self.old.answers self.old.line
            (K.written sink.old) (K.written sink.new)) }
    {
        let mut reply = Vec::new(alloc);
        add_answer(alloc, &mut self.answers, &self.line, &mut reply)?;
        write_all(sink, &reply)?;
        Ok(())
    }
}
