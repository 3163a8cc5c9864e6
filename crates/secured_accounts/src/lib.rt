//! Secured accounts: whichever of their live orders are filled, and at whatever prices their
//! markets are settled, their balances stay at or above what they need, and so at or above 0.
#![tactic(auto)]

mod accounts;
mod holdings;
pub mod laws;
mod refusal;

pub use accounts::{SecuredAccounts, ToldNeed};
pub use refusal::{Need, SecuringRefusal};
