//! Exact numbers: fractions of whole numbers whose numerators and denominators have a limit.
//!
//! `Exact` is what every such type offers. Its operators answer the exact value, or a `Wide`
//! exactly where a number of the computation leaves the limit. The definitions in `specs/` say
//! which numbers these are.
#![tactic(auto)]

pub mod divisor;
pub mod laws;
pub mod misfit;
pub mod number;
pub mod sums;

pub use divisor::{gcd, gcd_of_short};
pub use misfit::{Operator, Wide};
pub use number::Exact;
pub use sums::plus_product;
