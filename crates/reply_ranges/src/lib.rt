//! The ranges of what is written: each line that a run writes, or that is written for lines or
//! messages that are served, is within the ranges that its reader tests, so a check and an audit
//! accept it, and `propose` answers each book by a line that is taken.
#![tactic(auto)]

pub mod laws;
