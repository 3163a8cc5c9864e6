// An exchange that answers all lines and takes proposals.
ghost use Rattle.std.specs.Prelude.{◌≡◌, ◌≤◌, IfOk, false, length, Some};
ghost use Rattle.std.specs.Option.{option_map};
ghost use Rattle.command_text.specs.Within.{IsAccount, IsAmount, IsBudget, IsInside, IsWithin, RequestIsWithin};
ghost use Rattle.command_text.specs.declared.command.Command.TheVariants as Command;
ghost use Rattle.exchange_core.specs.Kept.{IsKept};
ghost use Rattle.form.specs.Limits.{IsWithinLimits};
ghost use Rattle.live_lines.specs.Answering.{by_step};
ghost use Rattle.order_book.specs.Book.{batch_of, market_of};
ghost use Rattle.proposal_lines.specs.Asked.{is_told};
ghost use Rattle.proposal_lines.specs.Clears.{clear_reply};
ghost use Rattle.proposal_lines.specs.Output.{other_reply, proposing_line, proposing_reply, settlement_reply, withdrawal_reply};
ghost use Rattle.proposal_lines.specs.Proposed.{proposed_by, proposed_of, proposed_reply};
ghost use Rattle.proposal_lines.specs.ProposingState.{empty_state};
ghost use Rattle.proposal_lines.specs.Reading.{reading_beside};

use crate::asked::told_reply;
use crate::clears::clear;
use crate::judging::judge;
use crate::kept_by_market::KeptByMarket;
use crate::proposed::{Proposed, proposed_of};
use crate::replies::{refused, refused_by_fault};
use auction_phases::ended_in;
use command_text::asked::Fault;
use command_text::words::SERVED;
use command_text::{Command, ProposeRequest, Request, read_line};
use exchange_core::Exchange;
use form::Batch;
use live_lines::{LineAnswers, LineSteps};
use proposal_text::{ServedReply, print_line};
use std::alloc::{AllocError, Global};
use std::marker::Model;

/// An exchange that answers all lines, each as the next one of an input, and takes proposals. A
/// clear whose reference run stops is charged as the proposals that are kept for the live orders
/// have it, or as the match where it covers as much, and told with the bound that is kept; any
/// other as where nothing is proposed. A clear and a settlement let go of what is kept for their
/// market. A line that proposes something or reads leaves accounts, markets and positions as they
/// are.
#[derive(Drop)]
pub struct ProposalLines {
    exchange: Exchange,
    kept: KeptByMarket,
}

impl Model for ProposalLines {
    ghost use Rattle.proposal_lines.specs.ProposingState.{ProposingState, state_of};
    ghost use Rattle.proposal_lines.specs.Proved.{AreProvedIn};

    ghost Value = { ProposingState };

    ghost view = { λ s. state_of s.exchange s.kept };

    ghost invariant = { λ s. AreProvedIn s.exchange.book s.kept };
}

impl ProposalLines {
    /// Before the first line. Takes no memory.
    pub fn new(alloc: Global) -> Self
        ensures { result ≡ empty_state }
    {
        ProposalLines {
            exchange: Exchange::new(alloc),
            kept: KeptByMarket::new(alloc),
        }
    }

    // Takes in what a line proposes, where it proves a bound.
    fn propose(
        &mut self,
        alloc: Global,
        said: Result<Proposed, Fault>,
    ) -> Result<ServedReply, AllocError>
        ensures { IfOk result (λ reply. (reply, self.new) ≡ proposed_reply self.old said) }
    {
        let proposed = match said {
            Ok(proposed) => proposed,
            Err(fault) => return Ok(refused_by_fault(fault)),
        };
        match self.exchange.orders(proposed.market) {
            Ok(batch) => self.take_proposal(alloc, proposed, &batch),
            Err(failure) => refused(failure),
        }
    }

    // Takes in a proposal for the batch of its market. Where memory is refused nothing is kept.
    fn take_proposal(
        &mut self,
        alloc: Global,
        proposed: Proposed,
        batch: &Batch,
    ) -> Result<ServedReply, AllocError>
        requires kept { IsKept self.old.exchange }
        requires batch { option_map batch_of (market_of self.old.exchange.book proposed.market)
            ≡ Some batch.now }
        requires within { IsWithinLimits batch.now }
        ensures { IfOk result (λ reply. (reply, self.new) ≡ proposed_by self.old proposed) }
    {
        match judge(alloc, &mut self.kept, proposed, batch) {
            Ok(reply) => Ok(ServedReply::Told(reply)),
            Err(error) => {
                self.kept.clear();
                Err(error)
            }
        }
    }

    fn clear(&mut self, alloc: Global, market: u32, budget: u32) -> Result<ServedReply, AllocError>
        requires { IsBudget budget }
        ensures { IfOk result (λ reply. (reply, self.new) ≡ clear_reply self.old market budget) }
    {
        match clear(alloc, &mut self.exchange, &mut self.kept, market, budget) {
            Ok(reply) => Ok(reply),
            Err(failure) => refused(failure),
        }
    }

    // The reply to a line that proposes this.
    fn proposal_reply(
        &mut self,
        alloc: Global,
        line: &[u8],
        request: ProposeRequest,
    ) -> Result<ServedReply, AllocError>
        requires { request.from ≤ length line.now }
        ensures { IfOk result (λ reply. (reply, self.new)
            ≡ proposed_reply self.old (proposed_of line.now request)) }
    {
        let said = proposed_of(alloc, line, request)?;
        self.propose(alloc, said)
    }

    // Settles a market, where nothing refuses it, and lets go of what is kept for it.
    fn settle(
        &mut self,
        market: u32,
        count: u8,
        prices: [u32; 8],
    ) -> Result<ServedReply, AllocError>
        requires { IsWithin (Command.Settle market count prices) }
        ensures { IfOk result (λ reply.
            (reply, self.new) ≡ settlement_reply self.old market count prices) }
    {
        let command = Command::Settle {
            market,
            count,
            prices,
        };
        let ended = ended_in(&self.exchange, &command);
        let reply = self.exchange.step(&command)?;
        self.kept.after_end(ended);
        Ok(ServedReply::Plain(reply))
    }

    // The reply of an exchange that takes no proposals.
    fn other_reply(
        &mut self,
        alloc: Global,
        said: Result<Request, Fault>,
    ) -> Result<ServedReply, AllocError>
        requires within { IfOk said RequestIsWithin }
        requires untold { is_told said ≡ false }
        ensures { IfOk result (λ reply. (reply, self.new) ≡ other_reply self.old said) }
    {
        let reply = guarded_lines::reply_to(alloc, &mut self.exchange, said)?;
        Ok(reply)
    }

    // What is told, where a line changes nothing, or the reply of an exchange that takes no
    // proposals.
    fn reply_beside(
        &mut self,
        alloc: Global,
        said: Result<Request, Fault>,
    ) -> Result<ServedReply, AllocError>
        requires { IfOk said RequestIsWithin }
        ensures { IfOk result (λ reply. (reply, self.new) ≡ reading_beside self.old said) }
    {
        match told_reply(alloc, &self.exchange, &said)? {
            Some(reply) => Ok(reply),
            None => self.other_reply(alloc, said),
        }
    }

    /// The reply of a run to a withdrawal, whatever the margins of its account: of whoever keeps
    /// withdrawals by another rule. The only error is want of memory.
    pub fn withdraw(&mut self, account: u32, amount: u64) -> Result<ServedReply, AllocError>
        requires account { IsAccount account }
        requires amount { IsAmount amount }
        ensures { IfOk result (λ reply.
            (reply, self.new) ≡ withdrawal_reply self.old account amount) }
    {
        let reply = self.exchange.step(&Command::Withdraw { account, amount })?;
        Ok(ServedReply::Plain(reply))
    }

    /// The exchange, of which may be asked what it would answer.
    pub fn exchange(&self) -> &Exchange
        ensures { result.now ≡ self.now.exchange }
    {
        &self.exchange
    }

    /// The reply to a line of these bytes that says this. The only error is want of memory.
    pub fn reply_to(
        &mut self,
        alloc: Global,
        line: &[u8],
        said: Result<Request, Fault>,
    ) -> Result<ServedReply, AllocError>
        requires within { IfOk said RequestIsWithin }
        requires inside { IfOk said (IsInside line.now) }
        ensures { IfOk result (λ reply.
            (reply, self.new) ≡ proposing_reply self.old line.now said) }
    {
        match said {
            Ok(Request::Propose(request)) => self.proposal_reply(alloc, line, request),
            Ok(Request::Command(Command::Clear { market, budget })) => {
                self.clear(alloc, market, budget)
            }
            Ok(
                Request::Command(
                    Command::Settle {
                        market,
                        count,
                        prices,
                    },
                ),
            ) => self.settle(market, count, prices),
            said => self.reply_beside(alloc, said),
        }
    }
}

impl LineAnswers for ProposalLines {
    ghost answers = { by_step proposing_line };

    fn answer(&mut self, alloc: Global, number: u32, line: &[u8]) -> Result<Vec<u8>, AllocError> {
        let said = read_line(alloc, &SERVED, line)?;
        let reply = self.reply_to(alloc, line, said)?;
        print_line(alloc, number, &reply)
    }

    ghost goes_on = { λ _ _ _. (tt, λ _ _ _ _. tt) };
}

impl LineSteps for ProposalLines {
    ghost step = { proposing_line };

    ghost steps = { λ _ _ _ _ _. (λ is. is, λ is. is) };
}
