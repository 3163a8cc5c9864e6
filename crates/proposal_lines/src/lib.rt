//! The answers to all lines: those of a run, quotes and margins, and withdrawals that leave an
//! account what its positions demand; and, where proposals are taken, lines that read a market's
//! live orders or an account's positions, lines that propose fills for a market, and clears. Where
//! the reference run stops and something was proposed for the live orders, a clear is told with a
//! bound, and charged as the best proposals have it or as the match, whichever covers more.
#![tactic(auto)]

pub mod all_kinds_laws;
mod answers;
mod asked;
mod clears;
mod judging;
mod kept_by_market;
pub mod laws;
mod proposed;
mod reads;
mod replies;
mod trials;

pub use answers::ProposalLines;
pub use asked::{in_form, told_reply};
pub use proposed::Proposed;
pub use trials::trial_reply;
