//! The ledger: accounts, a list of entries whose sums are their balances, and what is reserved of
//! them.
//!
//! A call takes memory only where it may answer `Memory`.
#![tactic(auto)]

mod accounts;
mod entry;
mod holding;
pub mod laws;
mod ledger;

pub use entry::{Cause, Entry};
pub use ledger::{Ledger, LedgerRefusal};
