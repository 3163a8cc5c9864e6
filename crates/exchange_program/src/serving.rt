// What the program does for a request.
ghost use Rattle.std.specs.Prelude.{◌≡◌, ◌≢◌, ◌⊎◌, ◌≤◌, ◌<◌, ◌+◌, Err, None, IfOk, IfSome, IsErrOf, OnErr, OnOk, length};
ghost use Rattle.std.specs.List.{All};
ghost use Rattle.std.specs.Io.KnownBytes.{Appends};
ghost use Rattle.byte_streams.specs.Faults.{Rose, raised_by};
ghost use Rattle.byte_streams.specs.Reads.{TakesUpTo};
ghost use Rattle.byte_streams.specs.Writes.{AppendsFront};
ghost use Rattle.journal_check.specs.JournalLines.{lines_of};
ghost use Rattle.program_words.specs.Requests.{IsRequestWithin};
ghost use Rattle.exchange_program.specs.Journals.{IsSoundIn, NamesFault};
ghost use Rattle.exchange_program.specs.Requests.{HasEnded, IsCheck, IsInputWithin, IsPastLimit, IsReadFirst, IsReadWhole, OfInput, OfOutput, OfSomeInput, Promised, PromisedFront, WhereCheck, WhereDemo, WithLimit, past_size, status_for};
ghost use Rattle.exchange_program.specs.Wrote.{Wrote, WroteFront};

use crate::check::{MAX_JOURNAL, report_on};
use crate::demo::write_demo;
use crate::mode_lines::ModeLines;
use crate::status::Status;
use byte_streams::{IoStop, Sink, Source, read_all};
use exchange_sessions::answer_messages;
use limits::MAX_BYTES;
use live_lines::answer_whole;
use program_words::Request;
use std::alloc::Global;

// The bytes that the request is about: those that were left, or none.
fn input_of<S: Source, K: Sink>(
    alloc: Global,
    request: Request,
    source: &mut S,
    sink: &K,
) -> Result<Vec<u8>, IoStop>
    requires { IsReadFirst request }
    ensures all { IfOk result (λ bytes.
        OfInput request (S.left source.old) (λ input. bytes.items ≡ input)) }
    ensures whole { OnOk result (IsReadWhole request (S.left source.old) (S.left source.new)) }
    ensures within { IfOk result (λ bytes.
        WithLimit request (λ limit. length bytes.items ≤ limit)) }
    ensures calm { OnOk result (S.faults source.new ≡ S.faults source.old) }
    ensures unread { WhereDemo request (source.new ≡ source.old) }
    ensures no_fault { IsErrOf result IoStop.ReadFault → WhereDemo request ⊥ }
    ensures fault { IsErrOf result IoStop.ReadFault →
        Rose (S.faults source.old) (S.faults source.new) }
    ensures in_time { IsErrOf result IoStop.ReadFault → WithLimit request (λ limit.
        (S.taken source.new ≤ S.taken source.old + limit)
        × TakesUpTo (S.left source.old) (S.left source.new) limit) }
    ensures too_long { IsErrOf result IoStop.TooLong →
        OfInput request (S.left source.old) (IsPastLimit request) }
    ensures no_fault_before { IsErrOf result IoStop.TooLong →
        S.faults source.new ≡ S.faults source.old }
    ensures too_many { IsErrOf result IoStop.TooLong →
        raised_by (S.taken source.old) (past_size request) ≤ S.taken source.new }
    ensures no_write_fault { result ≢ Err IoStop.WriteFault }
    ensures silent { S.last_read source.old ≡ None → IfSome (S.last_read source.new) (λ last.
        last.written ≡ K.written sink.now) }
{
    match request {
        Request::Lines(_) | Request::Sessions => read_all(alloc, source, sink, MAX_BYTES),
        Request::Check(_) => read_all(alloc, source, sink, MAX_JOURNAL),
        Request::Demo { .. } => Ok(Vec::new(alloc)),
        Request::Serve(_) | Request::Propose => unreachable!(),
    }
}

// Writes what the request asks for, of these bytes.
fn respond<K: Sink>(
    alloc: Global,
    request: Request,
    input: &[u8],
    sink: &mut K,
) -> Result<Status, IoStop>
    requires asked { IsRequestWithin request }
    requires first { IsReadFirst request }
    requires within { WithLimit request (λ limit. length input.now ≤ limit) }
    ensures status { IfOk result (λ status. status ≡ status_for request input.now) }
    ensures ok { OnOk result
        (OfOutput request input.now (Appends (K.written sink.old) (K.written sink.new))) }
    ensures front { OnErr result
        (OfOutput request input.now (AppendsFront (K.written sink.old) (K.written sink.new))) }
    ensures fault { IsErrOf result IoStop.WriteFault →
        Rose (K.faults sink.old) (K.faults sink.new) }
    ensures no_read_fault { result ≢ Err IoStop.ReadFault }
    ensures not_too_long { result ≢ Err IoStop.TooLong }
{
    match request {
        Request::Lines(mode) => {
            answer_whole(alloc, ModeLines::new(alloc, mode), true, input, sink)?;
            Ok(Status::Done)
        }
        Request::Check(journal) => report_on(alloc, journal, input, sink),
        Request::Sessions => {
            answer_messages(alloc, input, sink)?;
            Ok(Status::Done)
        }
        Request::Demo { seed, count } => {
            write_demo(alloc, seed, count, sink)?;
            Ok(Status::Done)
        }
        Request::Serve(_) | Request::Propose => unreachable!(),
    }
}

// Reads the input of a request, and then writes what it asks for.
pub(crate) fn answer_whole_input<S: Source, K: Sink>(
    alloc: Global,
    request: Request,
    source: &mut S,
    sink: &mut K,
) -> Status
    requires asked { IsRequestWithin request }
    requires first { IsReadFirst request }
    ensures known { result ≢ Status.Usage }

    // What is written is the defined output of all bytes that were left, and the status is theirs.
    ensures done { HasEnded result →
        OfInput request (S.left source.old) (λ input. (result ≡ status_for request input)
        × OfOutput request input (Appends (K.written sink.old) (K.written sink.new))) }
    ensures whole { HasEnded result →
        IsReadWhole request (S.left source.old) (S.left source.new) }
    ensures front { (result ≡ Status.WriteFault) ⊎ (result ≡ Status.Memory) →
        OfInput request (S.left source.old) (λ input.
        OfOutput request input (AppendsFront (K.written sink.old) (K.written sink.new))) }

    // It keeps what the request promises of it: each line is told its answer, and the answers keep
    // what is promised.
    ensures told { result ≡ Status.Done →
        OfSomeInput request (S.left source.old) (λ input.
        Wrote (K.written sink.old) (K.written sink.new) (Promised request input)) }
    ensures told_front { (result ≡ Status.WriteFault) ⊎ (result ≡ Status.Memory) →
        OfSomeInput request (S.left source.old) (λ input.
        WroteFront (K.written sink.old) (K.written sink.new) (PromisedFront request input)) }

    // Where a check is done every line is sound, and else its report names the first that is not.
    ensures sound { result ≡ Status.Done →
        WhereCheck request (λ journal. IfSome (S.left source.old) (λ input.
        All (IsSoundIn journal) (lines_of input))) }
    ensures faulty { result ≡ Status.CheckNo →
        WhereCheck request (λ journal.
        IfSome (S.left source.old) (NamesFault journal)) }
    ensures check_alone { result ≡ Status.CheckNo →
        IsCheck request }

    // When the source was last read nothing had been written.
    ensures in_time { S.last_read source.old ≡ None → IfSome (S.last_read source.new) (λ last.
        last.written ≡ K.written sink.old) }

    // A demo reads nothing, so no read of it fails.
    ensures unread { WhereDemo request (source.new ≡ source.old) }
    ensures no_read_fault { result ≡ Status.ReadFault →
        WhereDemo request ⊥ }

    // Each other status has its cause.
    ensures read_fault { result ≡ Status.ReadFault →
        Rose (S.faults source.old) (S.faults source.new) }
    ensures read_fault_in_time { result ≡ Status.ReadFault → WithLimit request (λ limit.
        (S.taken source.new ≤ S.taken source.old + limit)
        × TakesUpTo (S.left source.old) (S.left source.new) limit) }
    ensures silent { (result ≡ Status.ReadFault) ⊎ (result ≡ Status.TooLong) → sink.new ≡ sink.old }
    ensures write_fault { result ≡ Status.WriteFault →
        Rose (K.faults sink.old) (K.faults sink.new) }
    ensures too_long { result ≡ Status.TooLong →
        OfInput request (S.left source.old) (IsPastLimit request) }
    ensures too_long_no_fault { result ≡ Status.TooLong →
        S.faults source.new ≡ S.faults source.old }
    ensures too_many { result ≡ Status.TooLong →
        raised_by (S.taken source.old) (past_size request) ≤ S.taken source.new }
    ensures within { HasEnded result ⊎ (result ≡ Status.WriteFault) →
        OfInput request (S.left source.old) (λ input.
        WithLimit request (λ limit. length input ≤ limit)) }

    // Within the limit and without a fault, the output is written, or there was no memory.
    ensures complete { IsInputWithin request (S.left source.old) →
        ¬ Rose (S.faults source.old) (S.faults source.new) →
        ¬ Rose (K.faults sink.old) (K.faults sink.new) →
        HasEnded result ⊎ (result ≡ Status.Memory) }
{
    let input = match input_of(alloc, request, source, sink) {
        Ok(input) => input,
        Err(IoStop::ReadFault) => return Status::ReadFault,
        Err(IoStop::WriteFault) => unreachable!(),
        Err(IoStop::TooLong) => return Status::TooLong,
        Err(IoStop::Memory) => return Status::Memory,
    };
    match respond(alloc, request, &input, sink) {
        Ok(status) => status,
        Err(IoStop::WriteFault) => Status::WriteFault,
        Err(IoStop::ReadFault | IoStop::TooLong) => unreachable!(),
        Err(IoStop::Memory) => Status::Memory,
    }
}
