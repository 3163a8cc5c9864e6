// What answers what lines ask.
ghost use Rattle.std.specs.Prelude.{◌≡◌, ℕ, List, Result, IfOk, OnOk};
ghost use Rattle.command_text.specs.declared.asked.Fault as asked;
ghost use Rattle.command_text.specs.declared.requests.Request as requests;
ghost use Rattle.command_text.specs.Within.{IsInside, RequestIsWithin};
ghost use Rattle.exchange_core.specs.ExchangeState.{ExchangeState};

use command_text::Request;
use command_text::asked::Fault;
use exchange_core::Exchange;
use std::alloc::{AllocError, Global};

/// A way of answering lines by what they say, one after another, over an exchange. It keeps the
/// state between them.
pub trait AnswersRequests {
    /// The exchange in a state.
    ghost exchange_in: { Self → ExchangeState };

    /// What is written for a line with its number that says this, in a state, and the state after
    /// it.
    ghost said_step: { ℕ → Self → List ℕ → Result requests.Request asked.Fault → List ℕ × Self };

    /// The state once an account is secured that was just opened, where accounts may be.
    ghost with_opened: { Self → ℕ → Self };

    /// A state that may stand.
    ghost sound: { Self → Type 0 };

    /// The exchange, of which may be asked what it would answer.
    fn exchange(&self) -> &Exchange
        ensures { result.now ≡ exchange_in self.now };

    /// Goes one line further, and answers what is written for a line of exactly these bytes that
    /// says this. The only error is want of memory.
    fn answer_said(
        &mut self,
        alloc: Global,
        number: u32,
        line: &[u8],
        said: Result<Request, Fault>,
    ) -> Result<Vec<u8>, AllocError>
        requires within { IfOk said RequestIsWithin }
        requires inside { IfOk said (IsInside line.now) }
        ensures { IfOk result (λ text.
            (text.items, self.new) ≡ said_step number self.old line.now said) };

    /// Secures an account that was just opened, where accounts may be secured. The only error is
    /// want of memory.
    fn secure_opened(&mut self, account: u32) -> Result<(), AllocError>
        ensures { OnOk result (self.new ≡ with_opened self.old account) };
}
