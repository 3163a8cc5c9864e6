// An exchange that answers all lines of `serve`.
ghost use Rattle.std.specs.Prelude.{◌≡◌, IfOk};
ghost use Rattle.auction_phases.specs.Phases.{bars};
ghost use Rattle.command_text.specs.Within.{IsAccount, IsAmount, IsInside, IsWithin, RequestIsWithin};
ghost use Rattle.live_lines.specs.Answering.{by_step};
ghost use Rattle.serve_lines.specs.Output.{command_reply, handed_on, serving_line, serving_reply, withdrawal_reply};
ghost use Rattle.serve_lines.specs.Phased.{close_reply, exchange_of, reopen_reply};
ghost use Rattle.serve_lines.specs.ServingState.{empty_serving};

use crate::phased::{close, reopen};
use auction_phases::{Phases, ended_in};
use command_text::asked::Fault;
use command_text::words::SERVED;
use command_text::{Command, Request, read_line};
use exchange_core::Exchange;
use live_lines::{LineAnswers, LineSteps};
use proposal_lines::ProposalLines;
use proposal_text::{ProposalReply, ServedReply, print_line};
use std::alloc::{AllocError, Global};
use std::marker::Model;

/// An exchange that answers all lines, each as the next one of an input, takes proposals, and has
/// closed markets. A line that would place or cancel an order in a closed market is refused, where
/// the exchange would not refuse it; so is one that closes a market twice, or opens one that is not
/// closed. A clear or a settlement opens its market, and all else is answered as where no market is
/// closed.
#[derive(Drop)]
pub struct ServeLines {
    proposals: ProposalLines,
    phases: Phases,
}

impl Model for ServeLines {
    ghost use Rattle.serve_lines.specs.ServingState.{ServingState, serving_of};

    ghost Value = { ServingState };

    ghost view = { λ s. serving_of s.proposals s.phases };
}

impl ServeLines {
    /// Before the first line. Takes no memory.
    pub fn new(alloc: Global) -> Self
        ensures { result ≡ empty_serving }
    {
        ServeLines {
            proposals: ProposalLines::new(alloc),
            phases: Phases::new(alloc),
        }
    }

    fn close(&mut self, market: u32) -> Result<ServedReply, AllocError>
        ensures { IfOk result (λ reply. (reply, self.new) ≡ close_reply self.old market) }
    {
        close(self.proposals.exchange(), &mut self.phases, market)
    }

    fn reopen(&mut self, market: u32) -> ServedReply
        ensures { (result, self.new) ≡ reopen_reply self.old market }
    {
        reopen(self.proposals.exchange(), &mut self.phases, market)
    }

    /// The exchange, of which may be asked what it would answer.
    pub fn exchange(&self) -> &Exchange
        ensures { result.now ≡ exchange_of self.now }
    {
        self.proposals.exchange()
    }

    /// Whether a closed market keeps a command from the exchange.
    pub fn bars(&self, command: &Command) -> bool
        requires { IsWithin command.now }
        ensures { result ≡ bars self.now.closed (exchange_of self.now) command.now }
    {
        self.phases.bars(self.proposals.exchange(), command)
    }

    // The reply of an exchange without phases, after which a market is open that was cleared or
    // settled.
    fn hand_on(
        &mut self,
        alloc: Global,
        line: &[u8],
        said: Result<Request, Fault>,
        ended: Option<u32>,
    ) -> Result<ServedReply, AllocError>
        requires within { IfOk said RequestIsWithin }
        requires inside { IfOk said (IsInside line.now) }
        ensures { IfOk result (λ reply.
            (reply, self.new) ≡ handed_on self.old line.now said ended) }
    {
        let reply = self.proposals.reply_to(alloc, line, said)?;
        self.phases.after_end(ended);
        Ok(reply)
    }

    // The reply to a line of these bytes that says this command.
    fn command_reply(
        &mut self,
        alloc: Global,
        line: &[u8],
        command: Command,
    ) -> Result<ServedReply, AllocError>
        requires { IsWithin command }
        ensures { IfOk result (λ reply.
            (reply, self.new) ≡ command_reply self.old line.now command) }
    {
        if self.bars(&command) {
            return Ok(ServedReply::Told(ProposalReply::MarketIsClosed));
        }
        let ended = ended_in(self.proposals.exchange(), &command);
        self.hand_on(alloc, line, Ok(Request::Command(command)), ended)
    }

    /// The reply of a run to a withdrawal, whatever the margins of its account. The only error is
    /// want of memory.
    pub fn withdraw(&mut self, account: u32, amount: u64) -> Result<ServedReply, AllocError>
        requires account { IsAccount account }
        requires amount { IsAmount amount }
        ensures { IfOk result (λ reply.
            (reply, self.new) ≡ withdrawal_reply self.old account amount) }
    {
        self.proposals.withdraw(account, amount)
    }

    /// The reply to a line of these bytes that says this. The only error is want of memory.
    pub fn reply_to(
        &mut self,
        alloc: Global,
        line: &[u8],
        said: Result<Request, Fault>,
    ) -> Result<ServedReply, AllocError>
        requires within { IfOk said RequestIsWithin }
        requires inside { IfOk said (IsInside line.now) }
        ensures { IfOk result (λ reply.
            (reply, self.new) ≡ serving_reply self.old line.now said) }
    {
        match said {
            Ok(Request::Close { market }) => self.close(market),
            Ok(Request::Reopen { market }) => Ok(self.reopen(market)),
            Ok(Request::Command(command)) => self.command_reply(alloc, line, command),
            said => self.hand_on(alloc, line, said, None),
        }
    }
}

impl LineAnswers for ServeLines {
    ghost answers = { by_step serving_line };

    fn answer(&mut self, alloc: Global, number: u32, line: &[u8]) -> Result<Vec<u8>, AllocError> {
        let said = read_line(alloc, &SERVED, line)?;
        let reply = self.reply_to(alloc, line, said)?;
        print_line(alloc, number, &reply)
    }

    ghost goes_on = { λ _ _ _. (tt, λ _ _ _ _. tt) };
}

impl LineSteps for ServeLines {
    ghost step = { serving_line };

    ghost steps = { λ _ _ _ _ _. (λ is. is, λ is. is) };
}
