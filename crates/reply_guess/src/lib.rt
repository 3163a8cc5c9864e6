//! Reply lines as they are printed, read without a value in between. What is read is a guess: only
//! its ranges are tested here, and whether the line is its print is told by printing it.
#![tactic(auto)]

mod certificates;
mod cursor;
mod guessing;
mod items;
mod orders;
pub mod ranges;
mod replies;
mod stop;

pub use guessing::guess;
