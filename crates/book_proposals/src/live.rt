// The answers to an input, between two reads.
ghost use Rattle.std.specs.Prelude.{true};
ghost use Rattle.live_lines.specs.Serving.{IsServed, IsServedInTime};
ghost use Rattle.book_proposals.specs.LiveAnswers.{proposes};
ghost use Rattle.book_proposals.specs.Proposing.{WroteFor, WroteFrontFor, WroteFrontOf};

use crate::answers::propose_for;
use byte_streams::{IoStop, Sink, Source};
use live_lines::LineAnswers;
use std::alloc::{AllocError, Global};

// Answers a line by what is proposed for it. Which proposal it is, is left open.
#[derive(Clone, Copy, Debug)]
struct ProposedLines;

impl LineAnswers for ProposedLines {
    ghost answers = { proposes };

    fn answer(&mut self, alloc: Global, _number: u32, line: &[u8]) -> Result<Vec<u8>, AllocError> {
        propose_for(alloc, line)
    }

    ghost goes_on = { λ _ _ _. (tt, λ _ _ _ _. tt) };
}

/// Reads all that is left and answers its lines, each before the next read. The mark at the start
/// of the input is skipped.
///
/// At most 65,536 bytes are taken in a read. The answers to the lines that they complete are
/// written together, or each time that they are as many bytes.
pub fn propose_live<S: Source, K: Sink>(
    alloc: Global,
    source: &mut S,
    sink: &mut K,
) -> Result<(), IoStop>
    ensures in_time { IsServedInTime WroteFor true
        (S.left source.old) (K.written sink.old) (S.last_read source.new) }
    ensures served { IsServed WroteFor WroteFrontFor WroteFrontOf true (record {
      left = S.left source.old;
      still = S.left source.new;
      written = K.written sink.old;
      writes = K.written sink.new;
    }) (record {
      read = S.faults source.old;
      reads = S.faults source.new;
      write = K.faults sink.old;
      writes = K.faults sink.new;
      taken = S.taken source.old;
      takes = S.taken source.new;
    }) result }
{
    live_lines::serve(alloc, ProposedLines, true, source, sink)
}
