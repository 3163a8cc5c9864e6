// How many accounts each session opened, and how many orders it placed.
ghost use Rattle.std.specs.Prelude.{◌≡◌, ◌+◌, ◌<◌, [], nat_eq, OnOk};
ghost use Rattle.indexmap.specs.IndexMap.{insert_entry};
ghost use Rattle.limits.specs.declared.TheConstants.{MAX_LINES};
ghost use Rattle.members.specs.Members.{counted_of, none_counted};

use indexmap::IndexMap;
use std::alloc::{AllocError, Global};
use std::marker::Model;

/// How much of what all share a session has used.
#[derive(Clone, Copy, Debug, PartialEq, Eq)]
pub struct Counted {
    /// How many accounts it opened.
    pub opened: u32,
    /// How many orders it placed.
    pub placed: u32,
}

impl Counted {
    // Of a session that did nothing yet.
    pub(crate) fn new() -> Self
        ensures { result ≡ none_counted }
    {
        Counted {
            opened: 0,
            placed: 0,
        }
    }

    // With an account more.
    pub(crate) fn opening(self) -> Self
        requires { self.opened < MAX_LINES }
        ensures { result ≡ record self { opened = self.opened + 1 } }
    {
        Counted {
            opened: self.opened + 1,
            ..self
        }
    }

    // With an order more.
    pub(crate) fn placing(self) -> Self
        requires { self.placed < MAX_LINES }
        ensures { result ≡ record self { placed = self.placed + 1 } }
    {
        Counted {
            placed: self.placed + 1,
            ..self
        }
    }
}

#[derive(Drop)]
pub(crate) struct Counts {
    by_session: IndexMap<u32, Counted>,
}

impl Model for Counts {
    ghost use Rattle.std.specs.Prelude.{List, ℕ};
    ghost use Rattle.members.specs.declared.counts.Counted.{Counted};

    ghost Value = { List (ℕ × Counted) };

    ghost view = { λ s. s.by_session.entries };
}

impl Counts {
    // No session did anything.
    pub(crate) fn new(alloc: Global) -> Self
        ensures { result ≡ [] }
    {
        Counts {
            by_session: IndexMap::new(alloc),
        }
    }

    // What is counted of a session.
    pub(crate) fn of(&self, session: u32) -> Counted
        ensures { result ≡ counted_of self.now session }
    {
        match self.by_session.get(&session).copied() {
            Some(counted) => counted,
            None => Counted::new(),
        }
    }

    // Counts something else of a session.
    pub(crate) fn set(&mut self, session: u32, counted: Counted) -> Result<(), AllocError>
        ensures { OnOk result (self.new ≡ insert_entry nat_eq self.old session counted) }
    {
        self.by_session.insert(session, counted)?;
        Ok(())
    }
}
