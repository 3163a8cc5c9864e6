// The open accounts in the order in which they were opened, the house first, each with what is kept
// of it.
ghost use Rattle.std.specs.Prelude.{◌≡◌, ◌+◌, ◌++◌, [], ◌∷◌, ℕ, nat_eq, cond, length, Some, None, IsSome, is_some, OnOk, OnErr};
ghost use Rattle.std.specs.List.{list_any};
ghost use Rattle.std.specs.Map.{lookup, keys_of};
ghost use Rattle.cash_ledger.specs.Kept.{no_holding};

use crate::holding::Holding;
use indexmap::IndexMap;
use std::alloc::{AllocError, Global};
use std::marker::Model;

#[derive(Drop)]
pub(crate) struct Accounts {
    house: Holding,
    others: IndexMap<u32, Holding>,
}

impl Model for Accounts {
    ghost use Rattle.std.specs.Prelude.{List, ℕ, ◌∷◌};
    ghost use Rattle.cash_ledger.specs.declared.holding.Holding.{Holding};

    ghost Value = { List (ℕ × Holding) };

    ghost view = { λ s. (0, s.house) ∷ s.others.entries };
}

impl Accounts {
    // The house, without entries.
    pub(crate) fn new(alloc: Global) -> Self
        ensures { result ≡ (0, no_holding) ∷ [] }
    {
        Accounts {
            house: Holding::new(),
            others: IndexMap::new(alloc),
        }
    }

    // How many accounts are open, the house apart.
    pub(crate) fn len(&self) -> usize
        ensures { result + 1 ≡ length (keys_of self.now) }
    {
        self.others.len()
    }

    // What is kept of an account that is open.
    pub(crate) fn holding(&self, account: u32) -> Option<Holding>
        ensures value { result ≡ lookup (nat_eq account) self.now }
        ensures there { is_some result ≡ list_any (nat_eq account) (keys_of self.now) }
    {
        if account == 0 {
            Some(self.house)
        } else {
            self.others.get(&account).copied()
        }
    }

    // Adds an account without entries. It goes last.
    pub(crate) fn add(&mut self, account: u32) -> Result<(), AllocError>
        requires { lookup (nat_eq account) self.old ≡ None }
        ensures ok { OnOk result (keys_of self.new ≡ keys_of self.old ++ account ∷ []) }
        ensures each { OnOk result ((q : ℕ) → lookup (nat_eq q) self.new
            ≡ cond (nat_eq account q) (Some no_holding) (lookup (nat_eq q) self.old)) }
        ensures err { OnErr result (self.new ≡ self.old) }
    {
        self.others.insert(account, Holding::new())?;
        Ok(())
    }

    // Keeps something else of an account that is open.
    pub(crate) fn set(&mut self, account: u32, holding: Holding)
        requires { IsSome (lookup (nat_eq account) self.old) }
        ensures keys { keys_of self.new ≡ keys_of self.old }
        ensures each { (q : ℕ) → lookup (nat_eq q) self.new
            ≡ cond (nat_eq account q) (Some holding) (lookup (nat_eq q) self.old) }
    {
        if account == 0 {
            self.house = holding;
        } else {
            self.others.insert(account, holding).unwrap();
        }
    }
}
