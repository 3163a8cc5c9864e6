// Questions between messages.
ghost use Rattle.std.specs.Prelude.{◌≡◌, ◌≤◌, ◌<◌, ◌+◌, ◌==◌, ℕ, List, false, length, IfOk, IsTrue};
ghost use Rattle.std.specs.List.{list_any};
ghost use Rattle.limits.specs.declared.TheConstants.{MAX_LINES};
ghost use Rattle.session_gate.specs.Bodies.{is_body};
ghost use Rattle.session_lines.specs.Questions.{any_asks, asked_of, session_asks};

use crate::bodies::{AnswersMessages, AnySession};
use crate::messages::{Asked, question};
use crate::sessions::{SessionLines, without_feed};
use crate::texts::{print_asked, print_malformed};
use asked_lines::AnswersQuestions;
use std::alloc::{AllocError, Global};

/// A way of answering the bodies of messages that sessions may ask between them. What asks is lent
/// the state, and so changes nothing.
pub trait AsksBodies: AnswersMessages {
    /// What is written for what a session asks in a state; the number is that of the next body.
    ghost body_asks: { ℕ → ℕ → Self → List ℕ → List ℕ };

    /// Answers what a session asks.
    fn ask_body(
        &self,
        alloc: Global,
        session: u32,
        number: u32,
        body: &[u8],
    ) -> Result<Vec<u8>, AllocError>
        requires some { 0 < length body.now }
        requires one_line { list_any (λ b. b == 10) body.now ≡ false }
        requires few { number ≤ MAX_LINES }
        requires next { Self.ready number self.now }
        ensures { IfOk result (λ text. text.items ≡ body_asks session number self.now body.now) };
}

impl<A: AnswersQuestions> AsksBodies for AnySession<A> {
    ghost body_asks = { any_asks A.asks };

    fn ask_body(
        &self,
        alloc: Global,
        _session: u32,
        number: u32,
        body: &[u8],
    ) -> Result<Vec<u8>, AllocError> {
        self.lines.ask(alloc, number, body)
    }
}

impl<A: AsksBodies> SessionLines<A> {
    // The answer to what a session asks.
    fn answer_question(&self, alloc: Global, asked: &Asked) -> Result<Vec<u8>, AllocError>
        requires few { self.now.0.served < MAX_LINES }
        requires next { A.ready (self.now.0.served + 1) self.now.1 }
        requires body { IsTrue (is_body asked.now.body.now) }
        ensures { IfOk result (λ text. text.items
            ≡ asked_of A.body_asks self.now (asked.now.session, asked.now.body.now)) }
    {
        let number = self.gate.served() + 1;
        let text = self
            .bodies
            .ask_body(alloc, asked.session, number, asked.body)?;
        print_asked(alloc, asked.session, &without_feed(text))
    }
}

impl<A: AsksBodies> AnswersQuestions for SessionLines<A> {
    ghost asks = { session_asks A.body_asks };

    fn ask(&self, alloc: Global, number: u32, body: &[u8]) -> Result<Vec<u8>, AllocError> {
        match question(body) {
            Some(asked) => self.answer_question(alloc, &asked),
            None => Ok(print_malformed(alloc, number)?.into_bytes()),
        }
    }
}
