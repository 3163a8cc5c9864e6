//! The run of a linear program over rows of whole numbers, each row over one denominator, as a
//! definition, and that it ends as the run over fractions does.
//!
//! Both tables keep just the columns of the variables that are not basic, in the same order, so a
//! row of whole numbers is read place by place. There is no code here: each law is the contract of
//! a function that does nothing.
#![tactic(auto)]

pub mod whole_laws;
