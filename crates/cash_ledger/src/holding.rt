// What is kept of an open account beside the entries.
ghost use Rattle.std.specs.Prelude.{◌≡◌, ◌+◌, ◌≤◌, pos, ◌+ℤ◌, ◌-ℤ◌, FitsSigned};
ghost use Rattle.std.specs.Int.{w128};
ghost use Rattle.limits.specs.declared.TheConstants.{MAX_RESERVE, MAX_RESERVED};
ghost use Rattle.cash_ledger.specs.Kept.{no_holding};

use crate::entry::Entry;

// The sum of an account's entries and what of it is reserved, in ticks.
#[derive(Clone, Copy, Debug, PartialEq, Eq)]
pub(crate) struct Holding {
    pub(crate) total: i128,
    pub(crate) reserved: u128,
}

impl Holding {
    // Of an account without entries.
    pub(crate) fn new() -> Self
        ensures { result ≡ no_holding }
    {
        Holding {
            total: 0,
            reserved: 0,
        }
    }

    // The total with an entry more.
    pub(crate) fn after(self, entry: &Entry) -> Self
        requires { FitsSigned w128 (self.total +ℤ entry.now.amount) }
        ensures { result ≡ record self { total = self.total +ℤ entry.now.amount } }
    {
        Holding {
            total: self.total + entry.amount,
            ..self
        }
    }

    // The total less what is reserved.
    pub(crate) fn free(self) -> i128
        requires fits { FitsSigned w128 (self.total -ℤ pos self.reserved) }
        requires small { self.reserved ≤ MAX_RESERVED + MAX_RESERVE }
        ensures { result ≡ self.total -ℤ pos self.reserved }
    {
        self.total - self.reserved as i128
    }

    // Another amount reserved.
    pub(crate) fn reserving(self, reserved: u128) -> Self
        ensures { result ≡ record self { reserved = reserved } }
    {
        Holding { reserved, ..self }
    }
}
