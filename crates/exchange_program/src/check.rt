// The words `check` and `audit`: reply lines in, a report out.
ghost use Rattle.std.specs.Prelude.{◌≡◌, ◌≢◌, Err, IfOk, OnOk, OnErr, IsErrOf, string_bytes};
ghost use Rattle.std.specs.Io.KnownBytes.{Appends};
ghost use Rattle.byte_streams.specs.Faults.{Rose};
ghost use Rattle.byte_streams.specs.Writes.{AppendsFront};
ghost use Rattle.exchange_program.specs.Journals.{report_in as report_is, report_line, report_text_in};
ghost use Rattle.exchange_program.specs.Requests.{status_by};

use crate::status::Status;
use byte_streams::{IoStop, Sink, write_all};
use journal_audit::audit_journal;
use journal_check::{Report, audit_text, check_journal, text};
use program_words::Journal;
use std::alloc::{AllocError, Global};

/// At most so many bytes are read by `check` and by `audit`.
pub const MAX_JOURNAL: usize = 268_435_456;

// A report that names no fault is all that was asked for.
fn status_by(report: &Report) -> Status
    ensures { result ≡ status_by report.now }
{
    match report {
        Report::Sound { .. } => Status::Done,
        Report::Faulty { .. } => Status::CheckNo,
    }
}

// The report on a journal, by what wrote its lines.
fn report_in(alloc: Global, journal: Journal, input: &[u8]) -> Result<Report, AllocError>
    ensures { IfOk result (λ r. r ≡ report_is journal input.now) }
{
    match journal {
        Journal::Run => check_journal(alloc, input),
        Journal::Served => audit_journal(alloc, input),
    }
}

fn text_in(alloc: Global, journal: Journal, report: &Report) -> Result<String, AllocError>
    ensures { IfOk result (λ s. string_bytes s ≡ report_text_in journal report.now) }
{
    match journal {
        Journal::Run => text(alloc, report),
        Journal::Served => audit_text(alloc, report),
    }
}

// Writes the report on the lines of a journal.
pub(crate) fn report_on<K: Sink>(
    alloc: Global,
    journal: Journal,
    input: &[u8],
    sink: &mut K,
) -> Result<Status, IoStop>
    ensures status { IfOk result (λ status. status ≡ status_by (report_is journal input.now)) }
    ensures ok { OnOk result
        (Appends (K.written sink.old) (K.written sink.new) (report_line journal input.now)) }
    ensures front { OnErr result
        (AppendsFront (K.written sink.old) (K.written sink.new) (report_line journal input.now)) }
    ensures fault { IsErrOf result IoStop.WriteFault →
        Rose (K.faults sink.old) (K.faults sink.new) }
    ensures no_read_fault { result ≢ Err IoStop.ReadFault }
    ensures not_too_long { result ≢ Err IoStop.TooLong }
{
    let report = report_in(alloc, journal, input)?;
    let mut line = text_in(alloc, journal, &report)?;
    line.push('\n')?;
    write_all(sink, line.as_bytes())?;
    Ok(status_by(&report))
}
