// Why an account is not secured, or its need not told.
ghost use Rattle.std.specs.Prelude.{◌≡◌};
ghost use Rattle.secured_accounts.specs.Refusals.{number_of};

use account_need::NoNeed;
use exchange_core::Refusal;

/// What an account needs, in ticks, or the word that stands in its place.
pub type Need = Result<u128, NoNeed>;

/// Why an account is not secured, or its need not told.
#[derive(Clone, Copy, Debug)]
pub enum SecuringRefusal {
    /// The exchange has no such account.
    Exchange(Refusal),
    /// Its balance is not enough for this need.
    Uncovered(Need),
}

impl SecuringRefusal {
    /// The number of the refusal in a reply line.
    pub fn number(self) -> u32
        ensures { result ≡ number_of self }
    {
        match self {
            SecuringRefusal::Exchange(refusal) => refusal.number(),
            SecuringRefusal::Uncovered(_) => 14,
        }
    }
}
