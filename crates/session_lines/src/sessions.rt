// The messages of sessions, each answered as a line.
ghost use Rattle.std.specs.Prelude.{◌≡◌, ◌<◌, ◌+◌, IfOk, IsTrue, OnOk, Some};
ghost use Rattle.live_lines.specs.Answering.{by_step};
ghost use Rattle.session_gate.specs.Bodies.{is_body};
ghost use Rattle.session_gate.specs.Gate.{IsNumber, message_of};
ghost use Rattle.limits.specs.declared.TheConstants.{MAX_LINES};
ghost use Rattle.session_lines.specs.Answers.{kept_reply};
ghost use Rattle.session_lines.specs.Served.{without_feed};
ghost use Rattle.session_lines.specs.Sessions.{after_answered, new_sessions, said_step, session_step};
ghost use Rattle.session_lines.specs.Standing.{StandsBefore, stands_behind};

use crate::bodies::AnswersMessages;
use crate::messages::{Sent, message};
use crate::texts::{print_malformed, print_told};
use live_lines::{LineAnswers, LineSteps};
use session_gate::{Answer, Gate};
use std::alloc::{AllocError, Global};
use std::marker::Model;

/// The known sessions, and what answers the bodies of their messages, each as the next line of one
/// input.
#[derive(Drop)]
pub struct SessionLines<A: AnswersMessages> {
    pub(crate) gate: Gate,
    pub(crate) bodies: A,
}

impl<A: AnswersMessages> Model for SessionLines<A> {
    ghost use Rattle.session_lines.specs.Sessions.{SessionsState};

    ghost Value = { SessionsState A };

    ghost view = { λ s. (s.gate.state, s.bodies) };
}

/// A line without its line feed.
pub fn without_feed(line: Vec<u8>) -> Vec<u8>
    ensures { result.items ≡ without_feed line.items }
{
    let mut bytes = line;
    bytes.pop();
    bytes
}

/// The kept reply of a session, and nothing where it is not known.
pub fn kept_reply(gate: &Gate, session: u32) -> &[u8]
    ensures { result.now ≡ kept_reply gate.now.state session }
{
    match gate.kept(session) {
        Some(reply) => reply,
        None => &[],
    }
}

impl<A: AnswersMessages> SessionLines<A> {
    /// No session is known; what answers the bodies stands before its first line. Takes no memory.
    pub fn new(alloc: Global, bodies: A) -> Self
        ensures { result ≡ new_sessions bodies }
    {
        SessionLines {
            gate: Gate::new(alloc),
            bodies,
        }
    }

    // Has the body of a message answered, and keeps the reply.
    fn take(&mut self, alloc: Global, sent: &Sent) -> Result<(), AllocError>
        requires few { self.old.0.served < MAX_LINES }
        requires next { A.ready (self.old.0.served + 1) self.old.1 }
        requires number { IsNumber sent.now.number }
        requires body { IsTrue (is_body sent.now.body.now) }
        ensures { OnOk result (self.new ≡ after_answered A.body_step self.old
            (message_of sent.now.session sent.now.number sent.now.body.now)) }
    {
        let number = self.gate.served() + 1;
        let body = self.gate.reserve(sent.body)?;
        let text = self
            .bodies
            .answer_body(alloc, sent.session, number, sent.body)?;
        self.gate
            .keep(sent.session, sent.number, body, without_feed(text));
        Ok(())
    }

    // Answers a message.
    fn answer_message(
        &mut self,
        alloc: Global,
        line: u32,
        sent: &Sent,
    ) -> Result<Vec<u8>, AllocError>
        requires few { self.old.0.served < MAX_LINES }
        requires next { A.ready (self.old.0.served + 1) self.old.1 }
        requires number { IsNumber sent.now.number }
        requires body { IsTrue (is_body sent.now.body.now) }
        ensures { IfOk result (λ text. (text.items, self.new) ≡ said_step A.body_step line self.old
            (Some (message_of sent.now.session sent.now.number sent.now.body.now))) }
    {
        let answer = self.gate.answer(sent.session, sent.number, sent.body);
        if matches!(answer, Answer::First) {
            self.take(alloc, sent)?;
        }
        print_told(
            alloc,
            line,
            sent,
            answer,
            kept_reply(&self.gate, sent.session),
        )
    }
}

impl<A: AnswersMessages> LineAnswers for SessionLines<A> {
    ghost answers = { by_step (session_step A.body_step) };

    ghost stands = { StandsBefore A.ready };

    fn answer(&mut self, alloc: Global, number: u32, line: &[u8]) -> Result<Vec<u8>, AllocError> {
        match message(line) {
            Some(sent) => self.answer_message(alloc, number, &sent),
            None => Ok(print_malformed(alloc, number)?.into_bytes()),
        }
    }

    ghost goes_on = { stands_behind A.body_step A.ready A.stays_ready };
}

impl<A: AnswersMessages> LineSteps for SessionLines<A> {
    ghost step = { session_step A.body_step };

    ghost steps = { λ _ _ _ _ _. (λ is. is, λ is. is) };
}
