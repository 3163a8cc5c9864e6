//! Laws over the definition of a ledger: each is the contract of a function that does nothing.

ghost use Rattle.cash_ledger.specs.Laws.{BalancesFit};

/// The balances of fewer than 2^64 entries, none of them above the limit in size, fit 128 bits.
#[tactic(auto, using(crate::proofs::Balances::balances_fit))]
pub fn balances_fit()
    ensures { BalancesFit }
{}
