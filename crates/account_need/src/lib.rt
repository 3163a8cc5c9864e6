//! What an account needs so that it can always pay, whichever of its live orders are filled, and at
//! whatever prices its markets are settled.
#![tactic(auto)]

pub mod account;
mod costs;
mod entries;
mod exposure;
pub mod held;
mod kinds;
pub mod laws;
mod line;
pub mod market;
pub mod need;
mod options;
mod price;
mod several;
mod shares;
pub mod sums;
mod ticks;

pub use account::{Judged, may_be_secured, may_withdraw, need_of};
pub use held::form_sums;
pub use line::line_need;
pub use market::Market;
pub use need::NoNeed;
pub use sums::FormSum;
