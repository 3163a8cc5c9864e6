ghost use Rattle.std.specs.Prelude.{◌≡◌, ℕ, ◌+◌, ◌-◌, ◌≤◌, ◌<◌, ◌^◌, ◌++◌, [], ◌∷◌, true, pos, ◌≢◌, length, Err, IfOk, OnOk, OnErr, IfErr};
ghost use Rattle.limits.specs.declared.TheConstants.{MAX_ACCOUNT, MAX_ACCOUNTS, MAX_AMOUNT, MAX_GAIN, MAX_RESERVE, MAX_RESERVED};
ghost use Rattle.cash_ledger.specs.declared.ledger.LedgerRefusal.TheVariants as LedgerRefusal;
ghost use Rattle.cash_ledger.specs.Entries.{balance_of, deposit_of, withdrawal_of, transfer_of, IsBounded, AreBounded};
ghost use Rattle.cash_ledger.specs.Ledger.{is_open, if_open, balance_in, reserved_of, free_of, KeepsReserves, SetsReserve};
ghost use Rattle.cash_ledger.specs.Refusals.{unless_memory, open_refusals, account_refusals, funds_refusals};
ghost use Rattle.lists.specs.Refusals.{TellsFirst};

use crate::accounts::Accounts;
use crate::entry::{Cause, Entry};
use limits::MAX_ACCOUNTS;
use std::alloc::{AllocError, Global};
use std::marker::Model;
use thiserror::Error;

/// Why a ledger refuses a call. It is then as it was.
#[derive(Clone, Copy, Debug, PartialEq, Eq, Error)]
pub enum LedgerRefusal {
    #[error("the account is not open")]
    NoAccount,
    #[error("the account is open already")]
    AccountExists,
    #[error("the account has less than the amount that is not reserved")]
    Funds,
    #[error("there are too many accounts")]
    TooMany,
    #[error("out of memory")]
    Memory,
}

impl From<AllocError> for LedgerRefusal {
    ghost from_gives = { λ _ e. e ≡ LedgerRefusal.Memory };

    fn from(_: AllocError) -> Self {
        LedgerRefusal::Memory
    }
}

/// The open accounts and the entries; with the total and the reserve of each account kept beside
/// them.
#[derive(Drop)]
pub struct Ledger {
    accounts: Accounts,
    entries: Vec<Entry>,
}

impl Model for Ledger {
    ghost use Rattle.std.specs.Prelude.{◌-◌, nat_eq, vec_capacity, vec_len};
    ghost use Rattle.std.specs.Map.{lookup, keys_of};
    ghost use Rattle.cash_ledger.specs.Ledger.{LedgerState};
    ghost use Rattle.cash_ledger.specs.Kept.{AreKept, reserves_in};

    ghost Value = { LedgerState };

    ghost view = { λ s. record {
      accounts = keys_of s.accounts;
      entries = s.entries.items;
      reserves = reserves_in s.accounts;
      spare = vec_capacity s.entries - vec_len s.entries;
    } };

    ghost invariant = { λ s. AreKept (λ q. lookup (nat_eq q) s.accounts) s.entries.items };
}

impl Ledger {
    /// No account but the house, and no entry.
    pub fn new(alloc: Global) -> Self
        ensures accounts { result.accounts ≡ 0 ∷ [] }
        ensures entries { result.entries ≡ [] }
        ensures reserves { (q : ℕ) → reserved_of result q ≡ 0 }
    {
        Ledger {
            accounts: Accounts::new(alloc),
            entries: Vec::new(alloc),
        }
    }

    /// The balance of an open account, in ticks, or of the house, which is account 0.
    ///
    /// `None` where the account is not open.
    pub fn balance(&self, account: u32) -> Option<i128>
        ensures value { result ≡ balance_in self.now.accounts self.now.entries account }
        ensures bounded { AreBounded self.now.entries }
        ensures few { length self.now.entries < 2 ^ 64 }
    {
        Some(self.accounts.holding(account)?.total)
    }

    /// What is reserved of the balance of an open account, in ticks.
    ///
    /// `None` where the account is not open.
    pub fn reserved(&self, account: u32) -> Option<i128>
        ensures { result ≡ if_open self.now.accounts account (pos (reserved_of self.now account)) }
    {
        Some(self.accounts.holding(account)?.reserved as i128)
    }

    // What an open account may still pay, in ticks.
    fn free(&self, account: u32) -> Option<i128>
        ensures { result ≡ if_open self.now.accounts account (free_of self.now account) }
    {
        Some(self.accounts.holding(account)?.free())
    }

    /// Looks whether an account is open: `NoAccount` where it is not. Takes no memory.
    pub fn check_account(&self, account: u32) -> Result<(), LedgerRefusal>
        ensures refused { TellsFirst unless_memory result
            (account_refusals self.now.accounts account) }
        ensures no_memory { result ≢ Err LedgerRefusal.Memory }
    {
        if self.accounts.holding(account).is_none() {
            return Err(LedgerRefusal::NoAccount);
        }
        Ok(())
    }

    /// Looks whether an account may pay an amount, or have it reserved.
    ///
    /// `NoAccount` where the account is not open, and else `Funds` where its balance less what is
    /// reserved is below the amount. Takes no memory.
    pub fn check_payment(&self, account: u32, amount: u64) -> Result<(), LedgerRefusal>
        ensures refused { TellsFirst unless_memory result (funds_refusals self.now account amount) }
        ensures no_memory { result ≢ Err LedgerRefusal.Memory }
    {
        let free = self.free(account).ok_or(LedgerRefusal::NoAccount)?;
        if free < i128::from(amount) {
            return Err(LedgerRefusal::Funds);
        }
        Ok(())
    }

    /// Opens an account with balance 0, of which nothing is reserved.
    ///
    /// `AccountExists` where it is open, and else `TooMany` where 10,000 accounts are open.
    pub fn open(&mut self, account: u32) -> Result<(), LedgerRefusal>
        requires some { 1 ≤ account }
        requires within { account ≤ MAX_ACCOUNT }
        ensures accounts { OnOk result (self.new.accounts ≡ self.old.accounts ++ account ∷ []) }
        ensures balance { OnOk result (balance_of account self.new.entries ≡ pos 0) }
        ensures reserved { OnOk result (reserved_of self.new account ≡ 0) }
        ensures entries { self.new.entries ≡ self.old.entries }
        ensures reserves { KeepsReserves self.old self.new }
        ensures spare { self.new.spare ≡ self.old.spare }
        ensures refused { TellsFirst unless_memory result
            (open_refusals self.old.accounts account) }
        ensures err { OnErr result (self.new ≡ self.old) }
    {
        if self.accounts.holding(account).is_some() {
            return Err(LedgerRefusal::AccountExists);
        }
        if self.accounts.len() >= MAX_ACCOUNTS {
            return Err(LedgerRefusal::TooMany);
        }
        self.accounts.add(account)?;
        Ok(())
    }

    /// Makes room for this many entries, so that they need no memory.
    pub fn room(&mut self, entries: usize) -> Result<(), LedgerRefusal>
        ensures ok { OnOk result (entries ≤ self.new.spare) }
        ensures accounts { self.new.accounts ≡ self.old.accounts }
        ensures entries { self.new.entries ≡ self.old.entries }
        ensures reserves { KeepsReserves self.old self.new }
        ensures only { IfErr result (λ refusal. refusal ≡ LedgerRefusal.Memory) }
        ensures err { OnErr result (self.new ≡ self.old) }
    {
        self.entries.reserve(entries)?;
        Ok(())
    }

    // Adds an entry, for which there is room, of an account that is open.
    fn enter(&mut self, entry: Entry)
        requires open { is_open self.old.accounts entry.account ≡ true }
        requires room { 1 ≤ self.old.spare }
        requires bounded { IsBounded entry }
        ensures accounts { self.new.accounts ≡ self.old.accounts }
        ensures entries { self.new.entries ≡ self.old.entries ++ entry ∷ [] }
        ensures reserves { KeepsReserves self.old self.new }
        ensures spare { self.new.spare ≡ self.old.spare - 1 }
    {
        let holding = self.accounts.holding(entry.account).unwrap();
        self.entries.push_reserved(entry);
        self.accounts.set(entry.account, holding.after(&entry));
    }

    // Adds an entry of an account that is open, and answers its new balance.
    fn post(&mut self, entry: Entry) -> Result<i128, LedgerRefusal>
        requires open { is_open self.old.accounts entry.account ≡ true }
        requires bounded { IsBounded entry }
        ensures balance { IfOk result (λ balance.
            balance ≡ balance_of entry.account self.new.entries) }
        ensures accounts { self.new.accounts ≡ self.old.accounts }
        ensures entries { OnOk result (self.new.entries ≡ self.old.entries ++ entry ∷ []) }
        ensures reserves { KeepsReserves self.old self.new }
        ensures only { IfErr result (λ refusal. refusal ≡ LedgerRefusal.Memory) }
        ensures err { OnErr result (self.new ≡ self.old) }
    {
        self.room(1)?;
        self.enter(entry);
        Ok(self.balance(entry.account).unwrap())
    }

    /// Adds an amount to an account, and answers its new balance.
    ///
    /// `NoAccount` where the account is not open.
    pub fn deposit(&mut self, account: u32, amount: u64) -> Result<i128, LedgerRefusal>
        requires some { 1 ≤ amount }
        requires within { amount ≤ MAX_AMOUNT }
        ensures balance { IfOk result (λ balance. balance ≡ balance_of account self.new.entries) }
        ensures accounts { self.new.accounts ≡ self.old.accounts }
        ensures entries { OnOk result (self.new.entries
            ≡ self.old.entries ++ deposit_of account amount ∷ []) }
        ensures reserves { KeepsReserves self.old self.new }
        ensures refused { TellsFirst unless_memory result
            (account_refusals self.old.accounts account) }
        ensures err { OnErr result (self.new ≡ self.old) }
    {
        self.check_account(account)?;
        self.post(Entry {
            account,
            amount: i128::from(amount),
            cause: Cause::Deposit,
        })
    }

    /// Takes an amount from an account, and answers its new balance. As `check_payment` refuses.
    pub fn withdraw(&mut self, account: u32, amount: u64) -> Result<i128, LedgerRefusal>
        requires some { 1 ≤ amount }
        requires within { amount ≤ MAX_AMOUNT }
        ensures balance { IfOk result (λ balance. balance ≡ balance_of account self.new.entries) }
        ensures accounts { self.new.accounts ≡ self.old.accounts }
        ensures entries { OnOk result (self.new.entries
            ≡ self.old.entries ++ withdrawal_of account amount ∷ []) }
        ensures reserves { KeepsReserves self.old self.new }
        ensures refused { TellsFirst unless_memory result (funds_refusals self.old account amount) }
        ensures err { OnErr result (self.new ≡ self.old) }
    {
        self.check_payment(account, amount)?;
        self.post(Entry {
            account,
            amount: -i128::from(amount),
            cause: Cause::Withdraw,
        })
    }

    /// Reserves an amount of an open account's balance, beside what is reserved already.
    pub fn reserve(&mut self, account: u32, amount: u64)
        requires open { is_open self.old.accounts account ≡ true }
        requires within { amount ≤ MAX_RESERVE }
        requires reserved { reserved_of self.old account ≤ MAX_RESERVED }
        ensures reserves { SetsReserve self.old self.new account
            (reserved_of self.old account + amount) }
        ensures accounts { self.new.accounts ≡ self.old.accounts }
        ensures entries { self.new.entries ≡ self.old.entries }
        ensures spare { self.new.spare ≡ self.old.spare }
    {
        let holding = self.accounts.holding(account).unwrap();
        let more = holding.reserved + u128::from(amount);
        self.accounts.set(account, holding.reserving(more));
    }

    /// Gives an amount of an account free again. As much is reserved.
    pub fn release(&mut self, account: u32, amount: u64)
        requires open { is_open self.old.accounts account ≡ true }
        requires reserved { amount ≤ reserved_of self.old account }
        ensures reserves { SetsReserve self.old self.new account
            (reserved_of self.old account - amount) }
        ensures accounts { self.new.accounts ≡ self.old.accounts }
        ensures entries { self.new.entries ≡ self.old.entries }
        ensures spare { self.new.spare ≡ self.old.spare }
    {
        let holding = self.accounts.holding(account).unwrap();
        let less = holding.reserved - u128::from(amount);
        self.accounts.set(account, holding.reserving(less));
    }

    /// Moves an amount from one open account to another. There is room for two entries.
    pub fn move_amount(&mut self, from: u32, to: u32, amount: u64, cause: Cause)
        requires from { is_open self.old.accounts from ≡ true }
        requires to { is_open self.old.accounts to ≡ true }
        requires room { 2 ≤ self.old.spare }
        requires within { amount ≤ MAX_GAIN }
        ensures entries { self.new.entries ≡ self.old.entries ++ transfer_of from to amount cause }
        ensures accounts { self.new.accounts ≡ self.old.accounts }
        ensures reserves { KeepsReserves self.old self.new }
        ensures spare { self.new.spare ≡ self.old.spare - 2 }
    {
        self.enter(Entry {
            account: from,
            amount: -i128::from(amount),
            cause,
        });
        self.enter(Entry {
            account: to,
            amount: i128::from(amount),
            cause,
        });
    }
}
