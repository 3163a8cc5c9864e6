//! Reports, and what each is written as.
ghost use Rattle.std.specs.Prelude.{◌≡◌, ◌++◌, IfOk, string_bytes};
ghost use Rattle.journal_check.specs.Reports.{audit_text, batches_text, faulty_text, lines_text, reason_word, report_text};

use std::alloc::{AllocError, Global};

/// Why a line is no sound reply: the first test that it fails. The first five are those of reading
/// a line, the others those of the verdict on a cleared batch.
#[derive(Clone, Copy, Debug, PartialEq, Eq)]
pub enum Reason {
    /// The bytes have no reading as one JSON value.
    NotJson,
    /// The value is no reply.
    Shape,
    /// A text is no number.
    Number,
    /// A number is outside its range.
    Range,
    /// The line is not the print of what was read.
    Spelling,
    /// Fills, forms, states or the cover are not those of the batch.
    BatchShape,
    /// A fill is not from 0 to its quantity.
    Fill,
    /// The surplus is not what the fills leave, or the liability is not shown to be enough.
    Cover,
    /// The measure is none.
    Measure,
    /// The bound of the measure is not the surplus.
    Bound,
    /// A sum of the verdict does not fit.
    Wide,
}

/// What is said of a journal.
#[derive(Clone, Copy, Debug, PartialEq, Eq)]
pub enum Report {
    /// Each line is a sound reply: how many cleared lines there are, how many of them are marked
    /// bounded, how many lines there are, and how many lines marked optimal.
    Sound {
        batches: u64,
        bounded: u64,
        lines: u64,
        optimal: u64,
    },
    /// The first line that is no sound reply, counted from 1, and why.
    Faulty {
        line: u64,
        reason: Reason,
    },
}

fn word(reason: Reason) -> &'static str
    ensures { result.now ≡ reason_word reason }
{
    match reason {
        Reason::NotJson => "NotJson",
        Reason::Shape => "Shape",
        Reason::Number => "Number",
        Reason::Range => "Range",
        Reason::Spelling => "Spelling",
        Reason::BatchShape => "BatchShape",
        Reason::Fill => "Fill",
        Reason::Cover => "Cover",
        Reason::Measure => "Measure",
        Reason::Bound => "Bound",
        Reason::Wide => "Wide",
    }
}

fn faulty_text(alloc: Global, line: u64, reason: Reason) -> Result<String, AllocError>
    ensures { IfOk result (λ s. string_bytes s ≡ faulty_text line reason) }
{
    let reason = word(reason);
    format!(in alloc; "{{\"line\":{line},\"reason\":\"{reason}\",\"verdict\":\"no\"}}")
}

/// The line of a report on the lines of a run, without its line feed: it does not tell how many are
/// marked bounded.
pub fn text(alloc: Global, report: &Report) -> Result<String, AllocError>
    ensures { IfOk result (λ s. string_bytes s ≡ report_text report.now) }
{
    match report {
        Report::Sound {
            batches,
            lines,
            optimal,
            ..
        } => format!(in alloc;
            "{{\"batches\":{batches},\"lines\":{lines},\"optimal\":{optimal},\"verdict\":\"yes\"}}"
        ),
        Report::Faulty { line, reason } => faulty_text(alloc, *line, *reason),
    }
}

fn batches_text(alloc: Global, batches: u64, bounded: u64) -> Result<String, AllocError>
    ensures { IfOk result (λ s. string_bytes s ≡ batches_text batches bounded) }
{
    format!(in alloc; "{{\"batches\":{batches},\"bounded\":{bounded}")
}

fn lines_text(alloc: Global, lines: u64, optimal: u64) -> Result<String, AllocError>
    ensures { IfOk result (λ s. string_bytes s ≡ lines_text lines optimal) }
{
    format!(in alloc; ",\"lines\":{lines},\"optimal\":{optimal},\"verdict\":\"yes\"}}")
}

fn counts_text(
    alloc: Global,
    batches: u64,
    bounded: u64,
    lines: u64,
    optimal: u64,
) -> Result<String, AllocError>
    ensures { IfOk result (λ s. string_bytes s
        ≡ batches_text batches bounded ++ lines_text lines optimal) }
{
    let mut text = batches_text(alloc, batches, bounded)?;
    text.push_str(&lines_text(alloc, lines, optimal)?)?;
    Ok(text)
}

/// The line of a report on the lines of `serve`, without its line feed.
pub fn audit_text(alloc: Global, report: &Report) -> Result<String, AllocError>
    ensures { IfOk result (λ s. string_bytes s ≡ audit_text report.now) }
{
    match report {
        Report::Sound {
            batches,
            bounded,
            lines,
            optimal,
        } => counts_text(alloc, *batches, *bounded, *lines, *optimal),
        Report::Faulty { line, reason } => faulty_text(alloc, *line, *reason),
    }
}
