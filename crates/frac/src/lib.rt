//! Fractions of 128 and of 64 bits as exact numbers, and shares of whole numbers rounded down and
//! up.
#![tactic(auto)]

pub mod frac128;
pub mod frac64;
mod parts;
mod products;
pub mod quotients;
pub mod shares;
mod sizes;
mod small;
mod sums;
pub mod wholes;
pub mod widths;

pub use exact_num::gcd;
pub use frac64::Frac64;
pub use frac128::Frac128;
pub use shares::{mul_div_ceil, mul_div_floor};
pub use wholes::whole;
pub use widths::widen;
