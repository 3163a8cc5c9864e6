// What answers what is asked.
ghost use Rattle.std.specs.Prelude.{◌≡◌, ◌≤◌, ◌==◌, ℕ, List, false, IfOk};
ghost use Rattle.std.specs.List.{list_any};
ghost use Rattle.limits.specs.declared.TheConstants.{MAX_LINES};

use live_lines::LineSteps;
use std::alloc::{AllocError, Global};

/// A way of answering lines that may be asked between them. What asks is lent the state, and so
/// changes nothing.
pub trait AnswersQuestions: LineSteps {
    /// What is written for what is asked in a state; the number is that of the next line.
    ghost asks: { ℕ → Self → List ℕ → List ℕ };

    /// Answers what is asked. Its bytes may be none.
    fn ask(&self, alloc: Global, number: u32, body: &[u8]) -> Result<Vec<u8>, AllocError>
        requires one_line { list_any (λ b. b == 10) body.now ≡ false }
        requires few { number ≤ MAX_LINES }
        requires next { Self.stands number self.now }
        ensures { IfOk result (λ text. text.items ≡ asks number self.now body.now) };
}
