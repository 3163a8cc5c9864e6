// The call over the lines.
ghost use Rattle.std.specs.Prelude.{◌≡◌, IfOk};
ghost use Rattle.journal_check.specs.Findings.{finding_of};
ghost use Rattle.journal_check.specs.JournalLines.{lines_of};
ghost use Rattle.journal_check.specs.Laws.{Says};
ghost use Rattle.journal_check.specs.Reports.{report_by, report_of};

use crate::Report;
use crate::findings::{Finding, fault_finding, reply_finding};
use crate::journal_lines::cut_line;
use crate::judges::LineJudge;
use reply_text::read_line;
use std::alloc::{AllocError, Global};

/// The report on a journal by what judges its lines: the first line that is found faulty and why,
/// or else how many lines there are. Each line ends with a line feed, which the last may lack; what
/// stands behind the last line feed is a line unless it is empty. An error is want of memory.
pub fn report_by<J: LineJudge>(alloc: Global, bytes: &[u8]) -> Result<Report, AllocError>
    ensures { IfOk result (λ r. r ≡ report_by J.finding bytes.now) }
{
    let mut batches = 0;
    let mut bounded = 0;
    let mut lines = 0;
    let mut optimal = 0;
    let mut rest = bytes;
    while !rest.is_empty() {
        let cut = cut_line(rest);
        rest = cut.rest;
        lines += 1;
        match J::judge(alloc, cut.line)? {
            Finding::Faulty(reason) => {
                let line = lines;
                return Ok(Report::Faulty { line, reason });
            }
            Finding::Cleared { optimal: marked } => {
                batches += 1;
                optimal += u64::from(marked);
            }
            Finding::Bounded => {
                batches += 1;
                bounded += 1;
            }
            Finding::Plain => {}
        }
    }
    Ok(Report::Sound {
        batches,
        bounded,
        lines,
        optimal,
    })
}

// Lines of a run.
struct RunLines;

impl LineJudge for RunLines {
    ghost finding = { finding_of };

    fn judge(alloc: Global, line: &[u8]) -> Result<Finding, AllocError> {
        match read_line(alloc, line) {
            Ok((_, reply)) => reply_finding(alloc, &reply),
            Err(fault) => fault_finding(fault),
        }
    }
}

/// The report on a journal: the first line that is no sound reply and why, or else how many lines
/// there are. Each line ends with a line feed, which the last may lack; what stands behind the last
/// line feed is a line unless it is empty. A line is sound where it reads as a reply and, if that
/// is a cleared batch, the verdict on it is yes. An error is want of memory.
pub fn check_journal(alloc: Global, bytes: &[u8]) -> Result<Report, AllocError>
    ensures report { IfOk result (λ r. r ≡ report_of bytes.now) }
    ensures says { IfOk result (Says (lines_of bytes.now)) }
{
    report_by::<RunLines>(alloc, bytes)
}
