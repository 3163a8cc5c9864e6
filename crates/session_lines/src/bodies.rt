// What answers the bodies of messages.
ghost use Rattle.std.specs.Prelude.{◌≡◌, ◌≤◌, ◌<◌, ◌+◌, ◌==◌, ℕ, List, false, length, IfOk};
ghost use Rattle.std.specs.List.{list_any};
ghost use Rattle.limits.specs.declared.TheConstants.{MAX_LINES};
ghost use Rattle.session_lines.specs.Sessions.{any_session};
ghost use Rattle.session_lines.specs.Standing.{stands_next};

use live_lines::LineSteps;
use std::alloc::{AllocError, Global};
use std::marker::Model;

/// A way of answering the bodies of messages, one after another, each by the session that says it.
/// It keeps the state between them.
pub trait AnswersMessages {
    /// What is written for a body of a session, with its number among all bodies, in a state, and
    /// the state after it.
    ghost body_step: { ℕ → ℕ → Self → List ℕ → List ℕ × Self };

    /// A state before the body of this number.
    ghost ready: { ℕ → Self → Type 0 };

    /// Goes one body further, and answers what is written for a body of exactly these bytes with
    /// this number.
    fn answer_body(
        &mut self,
        alloc: Global,
        session: u32,
        number: u32,
        body: &[u8],
    ) -> Result<Vec<u8>, AllocError>
        requires some { 0 < length body.now }
        requires one_line { list_any (λ b. b == 10) body.now ≡ false }
        requires few { number ≤ MAX_LINES }
        requires next { ready number self.old }
        ensures { IfOk result (λ text.
            (text.items, self.new) ≡ body_step session number self.old body.now) };

    /// Behind a body a state is one before the next.
    ghost stays_ready: { (session number : ℕ) (state : Self) (body : List ℕ) → ready number state
        → ready (number + 1) (body_step session number state body).1 };
}

/// Lines that any session may say: a way of answering lines as one of answering bodies, which does
/// not look at the session.
#[derive(Drop)]
pub struct AnySession<A: LineSteps> {
    pub(crate) lines: A,
}

impl<A: LineSteps> Model for AnySession<A> {
    ghost Value = { A };

    ghost view = { λ s. s.lines };
}

impl<A: LineSteps> AnySession<A> {
    /// Any session may say these lines. Takes no memory.
    pub fn new(lines: A) -> Self
        ensures { result ≡ lines }
    {
        AnySession { lines }
    }
}

impl<A: LineSteps> AnswersMessages for AnySession<A> {
    ghost body_step = { any_session A.step };

    ghost ready = { A.stands };

    fn answer_body(
        &mut self,
        alloc: Global,
        _session: u32,
        number: u32,
        body: &[u8],
    ) -> Result<Vec<u8>, AllocError> {
        self.lines.answer(alloc, number, body)
    }

    ghost stays_ready = { stands_next A.answers A.step A.steps A.stands A.goes_on };
}
