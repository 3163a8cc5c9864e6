//! The run of the simplex method on a table, as a definition, and what it implies.
//!
//! A program is maximised pivot by pivot over its table by Bland's rule (Chvatal, Linear Programming,
//! chapters 2, 3 and 5): each step of each pivot is one exact operation with a limit on its size,
//! and the first step that does not fit stops the run. There is no code here: each law is the
//! contract of a function that does nothing.
#![tactic(auto)]

pub mod laws;
