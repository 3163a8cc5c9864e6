// An exchange that answers all lines of `serve`, over accounts that may be secured.
ghost use Rattle.std.specs.Prelude.{◌≡◌, IfOk, OnOk};
ghost use Rattle.command_text.specs.Within.{IsAccount, IsInside, IsWithin, RequestIsWithin};
ghost use Rattle.live_lines.specs.Answering.{by_step};
ghost use Rattle.secured_lines.specs.Output.{command_reply, kept_from, let_through, need_reply, secure_reply, secured_line, secured_reply, secured_said};
ghost use Rattle.secured_lines.specs.SecuredState.{empty_secured, exchange_in, with_opened};

use crate::replies::{need, secure, uncovered_reply};
use command_text::asked::Fault;
use command_text::words::SERVED;
use command_text::{Command, Request, read_line};
use exchange_core::Exchange;
use live_lines::{LineAnswers, LineSteps};
use proposal_text::{ServedReply, print_line};
use secured_accounts::{Need, SecuredAccounts};
use serve_lines::ServeLines;
use std::alloc::{AllocError, Global};
use std::marker::Model;

/// An exchange that answers all lines, each as the next one of an input, takes proposals, and has
/// closed markets and secured accounts. A line that would place an order of a secured account, or
/// withdraw of one, is refused where its balance would not be enough for its need then, where
/// nothing else refuses it. All else is answered as where no account is secured.
#[derive(Drop)]
pub struct SecuredLines {
    serving: ServeLines,
    accounts: SecuredAccounts,
}

impl Model for SecuredLines {
    ghost use Rattle.secured_lines.specs.SecuredState.{SecuredState, secured_of};

    ghost Value = { SecuredState };

    ghost view = { λ s. secured_of s.serving s.accounts };
}

impl SecuredLines {
    /// Before the first line. Takes no memory.
    pub fn new(alloc: Global) -> Self
        ensures { result ≡ empty_secured }
    {
        SecuredLines {
            serving: ServeLines::new(alloc),
            accounts: SecuredAccounts::new(alloc),
        }
    }

    /// The exchange, of which may be asked what it would answer.
    pub fn exchange(&self) -> &Exchange
        ensures { result.now ≡ exchange_in self.now }
    {
        self.serving.exchange()
    }

    /// Secures an account that was just opened, for good. The only error is want of memory.
    pub fn secure_opened(&mut self, account: u32) -> Result<(), AllocError>
        ensures { OnOk result (self.new ≡ with_opened self.old account) }
    {
        self.accounts.secure_opened(account)
    }

    fn secure(&mut self, alloc: Global, account: u32) -> Result<ServedReply, AllocError>
        requires { IsAccount account }
        ensures { IfOk result (λ reply. (reply, self.new) ≡ secure_reply self.old account) }
    {
        secure(alloc, self.serving.exchange(), &mut self.accounts, account)
    }

    // What an account needs.
    pub(crate) fn need(&self, alloc: Global, account: u32) -> Result<ServedReply, AllocError>
        ensures { IfOk result (λ reply. reply ≡ need_reply self.now account) }
    {
        need(alloc, self.serving.exchange(), &self.accounts, account)
    }

    // What keeps a command from the exchange that no closed market keeps from it.
    fn kept_from(&self, alloc: Global, command: &Command) -> Result<Option<Need>, AllocError>
        requires { IsWithin command.now }
        ensures { IfOk result (λ need. need ≡ kept_from self.now command.now) }
    {
        if self.serving.bars(command) {
            return Ok(None);
        }
        self.accounts
            .uncovered(alloc, self.serving.exchange(), command)
    }

    // The reply to a command of which the balance is enough. A withdrawal of a secured account is
    // carried out as a run does: its margins are in its need.
    fn let_through(
        &mut self,
        alloc: Global,
        line: &[u8],
        command: Command,
    ) -> Result<ServedReply, AllocError>
        requires { IsWithin command }
        ensures { IfOk result (λ reply.
            (reply, self.new) ≡ let_through self.old line.now command) }
    {
        match command {
            Command::Withdraw { account, amount } if self.accounts.is_secured(account) => {
                self.serving.withdraw(account, amount)
            }
            command => self
                .serving
                .reply_to(alloc, line, Ok(Request::Command(command))),
        }
    }

    // The reply to a line of these bytes that says this command.
    fn command_reply(
        &mut self,
        alloc: Global,
        line: &[u8],
        command: Command,
    ) -> Result<ServedReply, AllocError>
        requires { IsWithin command }
        ensures { IfOk result (λ reply.
            (reply, self.new) ≡ command_reply self.old line.now command) }
    {
        match self.kept_from(alloc, &command)? {
            Some(need) => Ok(uncovered_reply(need)),
            None => self.let_through(alloc, line, command),
        }
    }

    // The reply to a line of these bytes that says this.
    fn reply_to(
        &mut self,
        alloc: Global,
        line: &[u8],
        said: Result<Request, Fault>,
    ) -> Result<ServedReply, AllocError>
        requires within { IfOk said RequestIsWithin }
        requires inside { IfOk said (IsInside line.now) }
        ensures { IfOk result (λ reply.
            (reply, self.new) ≡ secured_reply self.old line.now said) }
    {
        match said {
            Ok(Request::Secure { account }) => self.secure(alloc, account),
            Ok(Request::Need { account }) => self.need(alloc, account),
            Ok(Request::Command(command)) => self.command_reply(alloc, line, command),
            said => self.serving.reply_to(alloc, line, said),
        }
    }

    /// The answer to a line of these bytes that says this. The only error is want of memory.
    pub fn answer_said(
        &mut self,
        alloc: Global,
        number: u32,
        line: &[u8],
        said: Result<Request, Fault>,
    ) -> Result<Vec<u8>, AllocError>
        requires within { IfOk said RequestIsWithin }
        requires inside { IfOk said (IsInside line.now) }
        ensures { IfOk result (λ text.
            (text.items, self.new) ≡ secured_said number self.old line.now said) }
    {
        let reply = self.reply_to(alloc, line, said)?;
        print_line(alloc, number, &reply)
    }
}

impl LineAnswers for SecuredLines {
    ghost answers = { by_step secured_line };

    fn answer(&mut self, alloc: Global, number: u32, line: &[u8]) -> Result<Vec<u8>, AllocError> {
        let said = read_line(alloc, &SERVED, line)?;
        self.answer_said(alloc, number, line, said)
    }

    ghost goes_on = { λ _ _ _. (tt, λ _ _ _ _. tt) };
}

impl LineSteps for SecuredLines {
    ghost step = { secured_line };

    ghost steps = { λ _ _ _ _ _. (λ is. is, λ is. is) };
}
