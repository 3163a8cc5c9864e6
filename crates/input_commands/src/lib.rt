//! The commands of a whole input, read at once. No program reads so: each reads one line after
//! another. This is for who wants a session as a list.
#![tactic(auto)]

mod reading;

pub use reading::commands;
