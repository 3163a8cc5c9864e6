// Lines that sessions say.
ghost use Rattle.std.specs.Prelude.{◌≡◌, IfOk, OnOk};
ghost use Rattle.command_text.specs.Within.{IsInside, RequestIsWithin};
ghost use Rattle.limits.specs.declared.TheConstants.{MAX_LINES};
ghost use Rattle.members.specs.Members.{AreFew};
ghost use Rattle.member_lines.specs.Aims.{opened_by};
ghost use Rattle.member_lines.specs.Lines.{member_line, member_state, new_lines, noted, noted_in, passed_line, ruled_line, secured_for};
ghost use Rattle.member_lines.specs.Ready.{AreReady, ready_behind};

use crate::aims::{Aim, aim_of, done_by, opened_by};
use crate::refused::refused_text;
use crate::requests::AnswersRequests;
use command_text::words::SERVED;
use command_text::{Request, read_line};
use members::Members;
use members::rule::is_operator;
use session_lines::AnswersMessages;
use std::alloc::{AllocError, Global};
use std::marker::Model;

/// What answers lines, and who may say which of them. A line that the rule refuses to its session,
/// or that goes beyond what the session may use, is refused before all else, and changes nothing.
#[derive(Drop)]
pub struct MemberLines<A: AnswersRequests> {
    pub(crate) members: Members,
    pub(crate) served: A,
}

impl<A: AnswersRequests> Model for MemberLines<A> {
    ghost use Rattle.member_lines.specs.Aims.{opened_by};
    ghost use Rattle.member_lines.specs.Lines.{MemberState};

    ghost Value = { MemberState A };

    ghost view = { λ s. record { served = s.served; members = s.members } };
}

impl<A: AnswersRequests> MemberLines<A> {
    /// No account has an owner. Takes no memory.
    pub fn new(alloc: Global, served: A) -> Self
        ensures { result ≡ new_lines served }
    {
        MemberLines {
            members: Members::new(alloc),
            served,
        }
    }

    // Counts what was done.
    fn count(&mut self, session: u32, aim: &Aim) -> Result<(), AllocError>
        requires { AreFew MAX_LINES self.old.members.counts session }
        ensures { OnOk result (self.new ≡ member_state self.old.served
            (noted self.old.members session (A.exchange_in self.old.served) aim.now)) }
    {
        match done_by(self.served.exchange(), aim) {
            Some(reply) => self.members.after(session, &reply),
            None => Ok(()),
        }
    }

    // Secures an account that was opened, unless it is the operator's.
    fn secure(&mut self, session: u32, aim: &Aim) -> Result<(), AllocError>
        ensures { OnOk result (self.new ≡ member_state (secured_for A.with_opened session
            self.old.served (opened_by (A.exchange_in self.old.served) aim.now)) self.old.members) }
    {
        match opened_by(self.served.exchange(), aim) {
            Some(account) => {
                if is_operator(session) {
                    Ok(())
                } else {
                    self.served.secure_opened(account)
                }
            }
            None => Ok(()),
        }
    }

    // Takes note of what was done.
    fn note(&mut self, session: u32, aim: &Aim) -> Result<(), AllocError>
        requires { AreFew MAX_LINES self.old.members.counts session }
        ensures { OnOk result (self.new
            ≡ noted_in A.exchange_in A.with_opened self.old session aim.now) }
    {
        self.count(session, aim)?;
        self.secure(session, aim)
    }

    // The answer to a line that the rule lets through.
    fn pass(
        &mut self,
        alloc: Global,
        session: u32,
        number: u32,
        body: &[u8],
        request: Request,
    ) -> Result<Vec<u8>, AllocError>
        requires within { RequestIsWithin request }
        requires inside { IsInside body.now request }
        requires few { AreFew MAX_LINES self.old.members.counts session }
        ensures { IfOk result (λ text. (text.items, self.new)
            ≡ passed_line A.exchange_in A.said_step A.with_opened session number self.old body.now request) }
    {
        let aim = aim_of(self.served.exchange(), &request);
        let text = self.served.answer_said(alloc, number, body, Ok(request))?;
        self.note(session, &aim)?;
        Ok(text)
    }

    // The answer to a line that asks this.
    fn rule(
        &mut self,
        alloc: Global,
        session: u32,
        number: u32,
        body: &[u8],
        request: Request,
    ) -> Result<Vec<u8>, AllocError>
        requires within { RequestIsWithin request }
        requires inside { IsInside body.now request }
        requires few { AreFew MAX_LINES self.old.members.counts session }
        ensures { IfOk result (λ text. (text.items, self.new)
            ≡ ruled_line A.exchange_in A.said_step A.with_opened session number self.old body.now request) }
    {
        let exchange = self.served.exchange();
        match self.members.refusal_to(exchange, session, &request)? {
            Some(refusal) => refused_text(alloc, number, refusal),
            None => self.pass(alloc, session, number, body, request),
        }
    }
}

impl<A: AnswersRequests> AnswersMessages for MemberLines<A> {
    ghost body_step = { member_line A.exchange_in A.said_step A.with_opened };

    ghost ready = { AreReady };

    fn answer_body(
        &mut self,
        alloc: Global,
        session: u32,
        number: u32,
        body: &[u8],
    ) -> Result<Vec<u8>, AllocError> {
        match read_line(alloc, &SERVED, body)? {
            Ok(request) => self.rule(alloc, session, number, body, request),
            Err(fault) => self.served.answer_said(alloc, number, body, Err(fault)),
        }
    }

    ghost stays_ready = { ready_behind A.exchange_in A.said_step A.with_opened };
}
