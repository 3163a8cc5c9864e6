// Which accounts are secured, and what that keeps from the exchange.
ghost use Rattle.std.specs.Prelude.{◌≡◌, ◌&&◌, [], IfOk, OnOk, OnErr, None, Some, if◌then◌else◌, is_none, true};
ghost use Rattle.cash_ledger.specs.Entries.{balance_of};
ghost use Rattle.cash_ledger.specs.Ledger.{is_open};
ghost use Rattle.command_text.specs.Within.{IsAccount, IsWithin};
ghost use Rattle.command_text.specs.declared.command.Command.TheVariants as Command;
ghost use Rattle.lists.specs.Refusals.{first_of};
ghost use Rattle.order_book.specs.Within.{IsNewOrderWithin};
ghost use Rattle.exchange_core.specs.Refusals.{place_refusals, refusal_of};
ghost use Rattle.secured_accounts.specs.Refusals.{after_securing, need_answer, secure_answer};
ghost use Rattle.secured_accounts.specs.Secured.{is_secured, uncovered, uncovered_order, with_secured};

use crate::holdings::account_of;
use crate::refusal::{Need, SecuringRefusal};
use account_need::{Judged, may_be_secured, may_withdraw};
use exchange_core::{Command, Exchange, NewOrder, Refusal, order_of};
use std::alloc::{AllocError, Global};
use std::marker::Model;

/// The secured accounts, in the order in which they were secured.
#[derive(Drop)]
pub struct SecuredAccounts {
    secured: Vec<u32>,
}

impl Model for SecuredAccounts {
    ghost use Rattle.std.specs.Prelude.{List, ℕ};

    ghost Value = { List ℕ };

    ghost view = { λ s. s.secured.items };
}

/// What is told of an account: its balance and its need, in ticks, and whether it is secured.
#[derive(Clone, Copy, Debug)]
pub struct ToldNeed {
    pub balance: i128,
    pub need: Need,
    pub secured: bool,
}

// The balance of an account that is open, in ticks.
fn balance_of(exchange: &Exchange, account: u32) -> i128
    requires { is_open exchange.now.accounts account ≡ true }
    ensures { result ≡ balance_of account exchange.now.entries }
{
    exchange.balance(account).unwrap()
}

// The need, where the balance is not enough for it.
fn need_above(judged: &Judged) -> Option<Need>
    ensures { result ≡ (if judged.now.may then None else Some judged.now.need) }
{
    if judged.may { None } else { Some(judged.need) }
}

impl SecuredAccounts {
    /// No account is secured.
    pub fn new(alloc: Global) -> Self
        ensures { result ≡ [] }
    {
        SecuredAccounts {
            secured: Vec::new(alloc),
        }
    }

    /// Whether an account is secured. Takes no memory.
    pub fn is_secured(&self, account: u32) -> bool
        ensures { result ≡ is_secured self.now account }
    {
        self.secured.contains(&account)
    }

    // Adds an account, once.
    fn add(&mut self, account: u32) -> Result<(), AllocError>
        ensures ok { OnOk result (self.new ≡ with_secured self.old account) }
        ensures err { OnErr result (self.new ≡ self.old) }
    {
        if self.is_secured(account) {
            return Ok(());
        }
        self.secured.reserve(1)?;
        self.secured.push_reserved(account);
        Ok(())
    }

    /// Secures an account that was just opened, for good: it has nothing yet, and so needs nothing.
    /// The only error is want of memory.
    pub fn secure_opened(&mut self, account: u32) -> Result<(), AllocError>
        ensures ok { OnOk result (self.new ≡ with_secured self.old account) }
        ensures err { OnErr result (self.new ≡ self.old) }
    {
        self.add(account)
    }

    /// Secures an account, for good, and answers its need, which is an amount. One that is secured
    /// stays so either way. The only error is want of memory.
    ///
    /// The first of these is refused: the exchange's `NoAccount` where the account is not open;
    /// `Uncovered` with the need where that is a word or above the balance.
    pub fn secure(
        &mut self,
        alloc: Global,
        exchange: &Exchange,
        account: u32,
    ) -> Result<Result<Need, SecuringRefusal>, AllocError>
        requires { IsAccount account }
        ensures answer { IfOk result (λ answer. answer ≡ secure_answer exchange.now account) }
        ensures ok { OnOk result (self.new ≡ after_securing self.old exchange.now account) }
        ensures err { OnErr result (self.new ≡ self.old) }
    {
        let Some(balance) = exchange.balance(account) else {
            return Ok(Err(SecuringRefusal::Exchange(Refusal::NoAccount)));
        };
        let markets = account_of(alloc, exchange, account, &None)?;
        let judged = may_be_secured(alloc, &markets, balance)?;
        if !judged.may {
            return Ok(Err(SecuringRefusal::Uncovered(judged.need)));
        }
        self.add(account)?;
        Ok(Ok(judged.need))
    }

    /// What an account needs, beside its balance; the exchange's `NoAccount` where it is not open.
    /// The only error is want of memory.
    pub fn need(
        &self,
        alloc: Global,
        exchange: &Exchange,
        account: u32,
    ) -> Result<Result<ToldNeed, SecuringRefusal>, AllocError>
        ensures { IfOk result (λ answer. answer ≡ need_answer self.now exchange.now account) }
    {
        let Some(balance) = exchange.balance(account) else {
            return Ok(Err(SecuringRefusal::Exchange(Refusal::NoAccount)));
        };
        let markets = account_of(alloc, exchange, account, &None)?;
        let judged = may_be_secured(alloc, &markets, balance)?;
        Ok(Ok(ToldNeed {
            balance,
            need: judged.need,
            secured: self.is_secured(account),
        }))
    }

    // Whether an order is one of a secured account that the exchange would accept.
    fn judges_order(&self, exchange: &Exchange, order: &NewOrder) -> bool
        requires { IsNewOrderWithin order.now }
        ensures { result ≡ (is_secured self.now order.now.account
            && is_none (first_of (place_refusals exchange.now order.now))) }
    {
        self.is_secured(order.account) && exchange.check_order(order).is_ok()
    }

    // Whether a withdrawal is one of a secured account that the exchange would pay out.
    fn judges_withdrawal(&self, exchange: &Exchange, account: u32, amount: u64) -> bool
        ensures { result ≡ (is_secured self.now account
            && is_none (refusal_of exchange.now (Command.Withdraw account amount))) }
    {
        self.is_secured(account) && exchange.check_withdrawal(account, amount).is_ok()
    }

    // The need of a secured account with an order more, where its balance is not enough for it.
    fn uncovered_order(
        &self,
        alloc: Global,
        exchange: &Exchange,
        order: &NewOrder,
    ) -> Result<Option<Need>, AllocError>
        requires { IsNewOrderWithin order.now }
        ensures { IfOk result (λ need. need ≡ uncovered_order self.now exchange.now order.now) }
    {
        if !self.judges_order(exchange, order) {
            return Ok(None);
        }
        let balance = balance_of(exchange, order.account);
        let markets = account_of(alloc, exchange, order.account, &Some(*order))?;
        let judged = may_be_secured(alloc, &markets, balance)?;
        Ok(need_above(&judged))
    }

    // The need of a secured account, where its balance less an amount is not enough for it.
    fn uncovered_withdrawal(
        &self,
        alloc: Global,
        exchange: &Exchange,
        account: u32,
        amount: u64,
    ) -> Result<Option<Need>, AllocError>
        ensures { IfOk result (λ need. need
            ≡ uncovered self.now exchange.now (Command.Withdraw account amount)) }
    {
        if !self.judges_withdrawal(exchange, account, amount) {
            return Ok(None);
        }
        let balance = balance_of(exchange, account);
        let markets = account_of(alloc, exchange, account, &None)?;
        let judged = may_withdraw(alloc, &markets, balance, amount)?;
        Ok(need_above(&judged))
    }

    /// What keeps a command from the exchange: the need of a secured account whose order or
    /// withdrawal the exchange would accept, where that need is a word, or above what its balance
    /// is then. What the exchange refuses it refuses as ever. The only error is want of memory.
    pub fn uncovered(
        &self,
        alloc: Global,
        exchange: &Exchange,
        command: &Command,
    ) -> Result<Option<Need>, AllocError>
        requires { IsWithin command.now }
        ensures { IfOk result (λ need. need ≡ uncovered self.now exchange.now command.now) }
    {
        if let Some(order) = order_of(command) {
            return self.uncovered_order(alloc, exchange, &order);
        }
        match command {
            Command::Withdraw { account, amount } => {
                self.uncovered_withdrawal(alloc, exchange, *account, *amount)
            }
            _ => Ok(None),
        }
    }
}
