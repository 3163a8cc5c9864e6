// What sessions ask between lines.
ghost use Rattle.std.specs.Prelude.{◌≡◌, ℕ, List, Result, IfOk};
ghost use Rattle.command_text.specs.declared.asked.Fault as asked;
ghost use Rattle.command_text.specs.declared.requests.Request as requests;
ghost use Rattle.command_text.specs.Within.{IsInside, RequestIsWithin};
ghost use Rattle.member_lines.specs.Asked.{is_kept_from, member_asks};

use crate::lines::MemberLines;
use crate::refused::refused_text;
use crate::requests::AnswersRequests;
use asked_lines::may_be_asked;
use command_text::asked::Fault;
use command_text::words::SERVED;
use command_text::{Request, read_line};
use members::{MemberRefusal, Members};
use session_lines::AsksBodies;
use std::alloc::{AllocError, Global};

/// A way of answering lines by what they say that may be asked between them. What asks is lent the
/// state, and so changes nothing.
pub trait AsksRequests: AnswersRequests {
    /// What is written for a line that says this where it is asked; the number is that of the next
    /// line.
    ghost said_asks: { ℕ → Self → List ℕ → Result requests.Request asked.Fault → List ℕ };

    /// Answers what a line of exactly these bytes asks that says this.
    fn ask_said(
        &self,
        alloc: Global,
        number: u32,
        line: &[u8],
        said: Result<Request, Fault>,
    ) -> Result<Vec<u8>, AllocError>
        requires within { IfOk said RequestIsWithin }
        requires inside { IfOk said (IsInside line.now) }
        ensures { IfOk result (λ text. text.items ≡ said_asks number self.now line.now said) };
}

// Whether a line may be asked, but not by this session.
fn is_kept_from(members: &Members, session: u32, request: &Request) -> bool
    ensures { result ≡ is_kept_from members.now session request.now }
{
    may_be_asked(request) && !members.may_ask(session, request)
}

impl<A: AsksRequests> AsksBodies for MemberLines<A> {
    ghost body_asks = { member_asks A.said_asks };

    fn ask_body(
        &self,
        alloc: Global,
        session: u32,
        number: u32,
        body: &[u8],
    ) -> Result<Vec<u8>, AllocError> {
        match read_line(alloc, &SERVED, body)? {
            Ok(request) => {
                if is_kept_from(&self.members, session, &request) {
                    return refused_text(alloc, number, MemberRefusal::NotAllowed);
                }
                self.served.ask_said(alloc, number, body, Ok(request))
            }
            Err(fault) => self.served.ask_said(alloc, number, body, Err(fault)),
        }
    }
}
