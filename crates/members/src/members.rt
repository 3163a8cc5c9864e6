// The members: who owns what, and what each session may say.
ghost use Rattle.std.specs.Prelude.{◌≡◌, ◌<◌, IfOk, OnOk};
ghost use Rattle.command_text.specs.declared.requests.Request.TheVariants as asks;
ghost use Rattle.limits.specs.declared.TheConstants.{MAX_LINES};
ghost use Rattle.lists.specs.Refusals.{first_of};
ghost use Rattle.members.specs.Members.{AreFew, after_reply, counted_of, has_placed, is_allowed, is_over, may_ask, no_members, owner_of, owns_named, with_opened, with_placed};
ghost use Rattle.members.specs.Refusals.{rule_refusals};

use crate::counts::Counts;
use crate::live::has_own_live;
use crate::owners::Owners;
use crate::quota::{MAX_OPENED, MAX_PLACED};
use crate::refusal::MemberRefusal;
use crate::rule::{account_of, asker_of, is_among, is_operator, sender_of, word_of};
use command_text::{Command, Request};
use exchange_core::{Exchange, Reply};
use std::alloc::{AllocError, Global};
use std::marker::Model;

/// The owner of each account that a session opened, and how much each session has used of what all
/// share.
#[derive(Drop)]
pub struct Members {
    owners: Owners,
    counts: Counts,
}

impl Model for Members {
    ghost use Rattle.members.specs.Members.{MembersState};

    ghost Value = { MembersState };

    ghost view = { λ s. record { owners = s.owners; counts = s.counts } };
}

impl Members {
    /// No account has an owner, and no session did anything. Takes no memory.
    pub fn new(alloc: Global) -> Self
        ensures { result ≡ no_members }
    {
        Members {
            owners: Owners::new(alloc),
            counts: Counts::new(alloc),
        }
    }

    /// The session that owns an account: the one that opened it.
    pub fn owner(&self, account: u32) -> Option<u32>
        ensures { result ≡ owner_of self.now.owners account }
    {
        self.owners.owner(account)
    }

    // Whether a session owns the account that a line names.
    fn owns_named(&self, session: u32, account: Option<u32>) -> bool
        ensures { result ≡ owns_named self.now.owners session account }
    {
        match account {
            Some(account) => self.owners.owns(session, account),
            None => false,
        }
    }

    /// Whether the rule allows a session to say this as a message.
    pub fn allows(&self, session: u32, request: &Request) -> bool
        ensures { result ≡ is_allowed self.now.owners session request.now }
    {
        let owns = self.owns_named(session, account_of(request));
        is_among(sender_of(word_of(request)), session, owns)
    }

    /// Whether the rule allows a session to ask this, where it is what may be asked.
    pub fn may_ask(&self, session: u32, request: &Request) -> bool
        ensures { result ≡ may_ask self.now.owners session request.now }
    {
        let owns = self.owns_named(session, account_of(request));
        is_among(asker_of(word_of(request)), session, owns)
    }

    // Whether a session may place no order more in a market.
    fn has_placed(&self, exchange: &Exchange, session: u32, market: u32) -> Result<bool, AllocError>
        ensures { IfOk result (λ full. full
            ≡ has_placed self.now exchange.now.book session market) }
    {
        if self.counts.of(session).placed >= MAX_PLACED {
            return Ok(true);
        }
        has_own_live(&self.owners, exchange, session, market)
    }

    // Whether a command asks for more than a session that is not the operator's may use.
    fn exceeds(
        &self,
        exchange: &Exchange,
        session: u32,
        command: &Command,
    ) -> Result<bool, AllocError>
        ensures { IfOk result (λ over. over
            ≡ is_over self.now exchange.now session (asks.Command command.now)) }
    {
        if is_operator(session) {
            return Ok(false);
        }
        match command {
            Command::Open { .. } => Ok(self.counts.of(session).opened >= MAX_OPENED),
            Command::Trade { market, .. } => self.has_placed(exchange, session, *market),
            Command::Bundle { market, .. } => self.has_placed(exchange, session, *market),
            _ => Ok(false),
        }
    }

    /// Whether what a session says goes beyond its part of what all share. The operator's sessions
    /// have no such limit.
    pub fn is_over(
        &self,
        exchange: &Exchange,
        session: u32,
        request: &Request,
    ) -> Result<bool, AllocError>
        ensures { IfOk result (λ over. over ≡ is_over self.now exchange.now session request.now) }
    {
        match request {
            Request::Command(command) => self.exceeds(exchange, session, command),
            _ => Ok(false),
        }
    }

    /// Why a session may not say this as a message; `None` where it may. The first of these:
    /// `NotAllowed` where the rule does not allow it; `Quota` where the session has used its part
    /// of what all share. Both stand before what the exchange would refuse.
    pub fn refusal_to(
        &self,
        exchange: &Exchange,
        session: u32,
        request: &Request,
    ) -> Result<Option<MemberRefusal>, AllocError>
        ensures { IfOk result (λ refused. refused
            ≡ first_of (rule_refusals self.now exchange.now session request.now)) }
    {
        if !self.allows(session, request) {
            return Ok(Some(MemberRefusal::NotAllowed));
        }
        if self.is_over(exchange, session, request)? {
            return Ok(Some(MemberRefusal::Quota));
        }
        Ok(None)
    }

    // An account was opened by a session, which owns it from now on.
    fn opened(&mut self, session: u32, account: u32) -> Result<(), AllocError>
        requires { (counted_of self.old.counts session).opened < MAX_LINES }
        ensures { OnOk result (self.new ≡ with_opened self.old session account) }
    {
        let counted = self.counts.of(session).opening();
        self.counts.set(session, counted)?;
        self.owners.add(account, session)
    }

    // An order was placed by a session.
    fn placed(&mut self, session: u32) -> Result<(), AllocError>
        requires { (counted_of self.old.counts session).placed < MAX_LINES }
        ensures { OnOk result (self.new ≡ with_placed self.old session) }
    {
        let counted = self.counts.of(session).placing();
        self.counts.set(session, counted)
    }

    /// Takes note of what a session was answered: that it opened an account, or placed an order.
    /// Where memory is wanting, what is noted is no longer whole: nothing may be answered by it.
    pub fn after(&mut self, session: u32, reply: &Reply) -> Result<(), AllocError>
        requires { AreFew MAX_LINES self.old.counts session }
        ensures { OnOk result (self.new ≡ after_reply self.old session reply.now) }
    {
        match reply {
            Reply::Opened { account } => self.opened(session, *account),
            Reply::Placed { .. } => self.placed(session),
            _ => Ok(()),
        }
    }
}
