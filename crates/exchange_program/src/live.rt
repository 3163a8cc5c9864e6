// The word `serve`: lines of every kind or messages in, each answered before the next read.
ghost use Rattle.std.specs.Prelude.{◌≡◌, ℕ, List};
ghost use Rattle.asked_lines.specs.Asked.{asking_first};
ghost use Rattle.live_lines.specs.Output.{output_of};
ghost use Rattle.live_lines.specs.Serving.{IsServedInTime};
ghost use Rattle.served_members.specs.SecuredState.{empty_secured};
ghost use Rattle.served_members.specs.Members.{empty_members};
ghost use Rattle.session_lines.specs.Sessions.{new_sessions};
ghost use Rattle.exchange_program.specs.Live.{IsServedAs, WroteAnswers, counts_by, known_by, served_output, skips_mark, status_at};

use crate::status::Status;
use asked_lines::AskedLines;
use byte_streams::{IoStop, Sink, Source};
use live_lines::{LineSteps, serve};
use program_words::Served;
use served_members::{MemberLines, SecuredLines, ServedLines};
use session_lines::{AnySession, SessionLines};
use std::alloc::Global;

// How the answers ended, as a status.
pub(crate) fn status_at(ended: Result<(), IoStop>) -> Status
    ensures { result ≡ status_at ended }
{
    match ended {
        Ok(()) => Status::Done,
        Err(IoStop::ReadFault) => Status::ReadFault,
        Err(IoStop::WriteFault) => Status::WriteFault,
        Err(IoStop::TooLong) => Status::TooLong,
        Err(IoStop::Memory) => Status::Memory,
    }
}

// At the start of messages no byte is skipped.
fn skips_mark(served: Served) -> bool
    ensures { result ≡ skips_mark served }
{
    match served {
        Served::Lines => true,
        Served::Sessions | Served::Members => false,
    }
}

// Answers all that is left by a way of answering whose output is that of what is served.
fn serve_as<A: LineSteps + Drop, S: Source, K: Sink>(
    alloc: Global,
    served: Served,
    answers: A,
    source: &mut S,
    sink: &mut K,
) -> Result<(), IoStop>
    requires first { A.stands 1 answers }
    requires same { (input : List ℕ) →
        output_of A.step (skips_mark served) answers input ≡ served_output served input }
    ensures in_time { IsServedInTime (WroteAnswers served) (skips_mark served)
        (S.left source.old) (K.written sink.old) (S.last_read source.new) }
    ensures served { IsServedAs served
        (known_by S.left K.written source.old source.new sink.old sink.new)
        (counts_by S.faults S.taken K.faults source.old source.new sink.old sink.new) result }
{
    serve(alloc, answers, skips_mark(served), source, sink)
}

// Lines, before the first, between which some may ask. Takes no memory.
fn asked_lines(alloc: Global) -> AskedLines<SecuredLines>
    ensures { result ≡ asking_first empty_secured }
{
    AskedLines::new(SecuredLines::new(alloc))
}

// Messages of sessions, likewise.
fn asked_sessions(alloc: Global) -> AskedLines<SessionLines<AnySession<SecuredLines>>>
    ensures { result ≡ asking_first (new_sessions empty_secured) }
{
    let lines = AnySession::new(SecuredLines::new(alloc));
    AskedLines::new(SessionLines::new(alloc, lines))
}

// Messages by the rule of who may say what, likewise.
fn asked_members(alloc: Global) -> AskedLines<SessionLines<MemberLines<ServedLines>>>
    ensures { result ≡ asking_first (new_sessions empty_members) }
{
    let lines = MemberLines::new(alloc, ServedLines::new(alloc));
    AskedLines::new(SessionLines::new(alloc, lines))
}

// Answers all lines or messages that are left.
pub(crate) fn answer_live<S: Source, K: Sink>(
    alloc: Global,
    served: Served,
    source: &mut S,
    sink: &mut K,
) -> Result<(), IoStop>
    ensures in_time { IsServedInTime (WroteAnswers served) (skips_mark served)
        (S.left source.old) (K.written sink.old) (S.last_read source.new) }
    ensures served { IsServedAs served
        (known_by S.left K.written source.old source.new sink.old sink.new)
        (counts_by S.faults S.taken K.faults source.old source.new sink.old sink.new) result }
{
    match served {
        Served::Lines => serve_as(alloc, served, asked_lines(alloc), source, sink),
        Served::Sessions => serve_as(alloc, served, asked_sessions(alloc), source, sink),
        Served::Members => serve_as(alloc, served, asked_members(alloc), source, sink),
    }
}
