//! Replies, what each is written as, and its line; and whether a JSON value has the shape of a
//! reply, and its texts are numbers.
#![tactic(auto)]

mod cleared_lines;
pub mod cleared_numbers;
pub mod cleared_shape;
pub mod fraction_texts;
pub mod laws;
mod lines;
pub mod look;
pub mod number_texts;
pub mod numbers;
pub mod printed_orders;
pub mod printed_outcomes;
pub mod printing;
pub mod replies;
pub mod shape;
mod small_lines;
pub mod words;

pub use lines::print;
pub use number_texts::has_numbers;
pub use replies::Reply;
pub use settlement::{PaidOut, Payouts};
pub use shape::has_shape;
