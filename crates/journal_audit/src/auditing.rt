// The call over the lines.
ghost use Rattle.std.specs.Prelude.{◌≡◌, IfOk};
ghost use Rattle.journal_check.specs.JournalLines.{lines_of};
ghost use Rattle.journal_audit.specs.Findings.{audit_finding, audit_of};
ghost use Rattle.journal_audit.specs.Laws.{AuditSays};

use crate::findings::found_in;
use journal_check::{Finding, LineJudge, Report, report_by};
use std::alloc::{AllocError, Global};

// Lines of `serve` and of `serve sessions`.
struct ServedLines;

impl LineJudge for ServedLines {
    ghost finding = { audit_finding };

    fn judge(alloc: Global, line: &[u8]) -> Result<Finding, AllocError> {
        found_in(alloc, line)
    }
}

/// The report on a journal of `serve` or of `serve sessions`: the first line that is no sound one
/// and why, or else how many lines there are. Lines end as those of `check` do. A line is sound
/// where it is the print of a reply of `serve`, of a refusal of the gate, or of the reply to an
/// accepted message, and, if that is a cleared batch, the judgement of it is yes: the verdict, or
/// where it is marked bounded that of its proposal and bound. An error is want of memory.
pub fn audit_journal(alloc: Global, bytes: &[u8]) -> Result<Report, AllocError>
    ensures report { IfOk result (λ r. r ≡ audit_of bytes.now) }
    ensures says { IfOk result (AuditSays (lines_of bytes.now)) }
{
    report_by::<ServedLines>(alloc, bytes)
}
