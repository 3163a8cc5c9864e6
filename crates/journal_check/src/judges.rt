//! What judges the lines of a journal.
ghost use Rattle.std.specs.Prelude.{◌≡◌, ℕ, List, IfOk};
ghost use Rattle.journal_check.specs.declared.findings.Finding as declared;

use crate::findings::Finding;
use std::alloc::{AllocError, Global};

/// What judges the lines of a journal, each by itself.
pub trait LineJudge {
    /// What a line is found to be.
    ghost finding: { List ℕ → declared.Finding };

    /// What a line is found to be. The only error is want of memory.
    fn judge(alloc: Global, line: &[u8]) -> Result<Finding, AllocError>
        ensures { IfOk result (λ f. f ≡ finding line.now) };
}
