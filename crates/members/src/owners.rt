// The session that opened each account.
ghost use Rattle.std.specs.Prelude.{◌≡◌, ◌++◌, [], ◌∷◌, nat_eq, None, OnOk};
ghost use Rattle.std.specs.Map.{lookup};
ghost use Rattle.members.specs.Members.{owner_of, owns, with_owner};

use indexmap::IndexMap;
use std::alloc::{AllocError, Global};
use std::marker::Model;

#[derive(Drop)]
pub(crate) struct Owners {
    by_account: IndexMap<u32, u32>,
}

impl Model for Owners {
    ghost use Rattle.std.specs.Prelude.{List, ℕ};

    ghost Value = { List (ℕ × ℕ) };

    ghost view = { λ s. s.by_account.entries };
}

impl Owners {
    // No account has an owner.
    pub(crate) fn new(alloc: Global) -> Self
        ensures { result ≡ [] }
    {
        Owners {
            by_account: IndexMap::new(alloc),
        }
    }

    // The session that owns an account.
    pub(crate) fn owner(&self, account: u32) -> Option<u32>
        ensures { result ≡ owner_of self.now account }
    {
        self.by_account.get(&account).copied()
    }

    // Whether a session owns an account.
    pub(crate) fn owns(&self, session: u32, account: u32) -> bool
        ensures { result ≡ owns self.now session account }
    {
        match self.owner(account) {
            Some(owner) => session == owner,
            None => false,
        }
    }

    // Gives an account that has none its owner.
    fn insert(&mut self, account: u32, session: u32) -> Result<(), AllocError>
        requires { lookup (nat_eq account) self.old ≡ None }
        ensures { OnOk result (self.new ≡ self.old ++ (account, session) ∷ []) }
    {
        self.by_account.insert(account, session)?;
        Ok(())
    }

    // Gives an account its owner, for good: an owner that it has stays.
    pub(crate) fn add(&mut self, account: u32, session: u32) -> Result<(), AllocError>
        ensures { OnOk result (self.new ≡ with_owner self.old account session) }
    {
        if self.owner(account).is_some() {
            return Ok(());
        }
        self.insert(account, session)
    }
}
