// What is asked between lines.
ghost use Rattle.std.specs.Prelude.{◌≡◌, IfOk};
ghost use Rattle.command_text.specs.Within.{IsInside, RequestIsWithin};
ghost use Rattle.secured_lines.specs.Asked.{account_of, asked_reply, said_asks, secured_asks, told_or_barred};

use crate::SecuredLines;
use asked_lines::AnswersQuestions;
use command_text::asked::Fault;
use command_text::words::SERVED;
use command_text::{Request, read_line};
use exchange_core::Exchange;
use proposal_lines::{in_form, told_reply};
use proposal_text::{Bar, ProposalReply, ServedReply, print_line};
use std::alloc::{AllocError, Global};

// What is told by the exchange alone. Any other line may not be asked.
fn told_or_barred(
    alloc: Global,
    exchange: &Exchange,
    said: &Result<Request, Fault>,
) -> Result<ServedReply, AllocError>
    requires { IfOk said.now RequestIsWithin }
    ensures { IfOk result (λ reply. reply ≡ told_or_barred exchange.now said.now) }
{
    match told_reply(alloc, exchange, said)? {
        Some(reply) => Ok(reply),
        None => Ok(ServedReply::Told(ProposalReply::Barred(Bar::NotAsked))),
    }
}

// The account whose need is asked.
fn account_of(said: &Result<Request, Fault>) -> Option<u32>
    ensures { result ≡ account_of said.now }
{
    match said {
        Ok(Request::Need { account }) => Some(*account),
        _ => None,
    }
}

impl SecuredLines {
    // What is told for a line of these bytes that asks this.
    #[tactic(auto, using(crate::proofs::AskedAlike::asked_by))]
    fn asked_reply(
        &self,
        alloc: Global,
        line: &[u8],
        said: &Result<Request, Fault>,
    ) -> Result<ServedReply, AllocError>
        requires { IfOk said.now RequestIsWithin }
        ensures { IfOk result (λ reply. reply ≡ asked_reply self.now line.now said.now) }
    {
        match account_of(said) {
            Some(account) => self.need(alloc, account),
            None => told_or_barred(alloc, self.exchange(), said),
        }
    }

    /// The answer to a line of these bytes that says this where it is asked; the number is that of
    /// the next line. The only error is want of memory.
    pub fn ask_said(
        &self,
        alloc: Global,
        number: u32,
        line: &[u8],
        said: Result<Request, Fault>,
    ) -> Result<Vec<u8>, AllocError>
        requires within { IfOk said RequestIsWithin }
        requires inside { IfOk said (IsInside line.now) }
        ensures { IfOk result (λ text. text.items ≡ said_asks number self.now line.now said) }
    {
        let said = in_form(alloc, line, said)?;
        let reply = self.asked_reply(alloc, line, &said)?;
        print_line(alloc, number, &reply)
    }
}

impl AnswersQuestions for SecuredLines {
    ghost asks = { secured_asks };

    fn ask(&self, alloc: Global, number: u32, body: &[u8]) -> Result<Vec<u8>, AllocError> {
        let said = read_line(alloc, &SERVED, body)?;
        self.ask_said(alloc, number, body, said)
    }
}
