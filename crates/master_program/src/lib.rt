//! The linear programs of a joint clearing, as definitions, and what they imply: the master
//! program, the program of a node of the search for a state at which fills owe more than the
//! liability, the search itself, and the rounds on several underlyings.
//!
//! The variables of the master program are the fill of each order and a slack; its rows say that no
//! fill is above its quantity, and that what the fills owe at each of some states is at most what
//! is put aside. The optimum has the greatest premium less liability, and its dual weighs the
//! states. (The matching program of Wang, Pennock, Devanur, Rothschild, Tao and Wellman, Designing
//! a Combinatorial Financial Options Market, EC 2021.)
//!
//! The states of a node have entries that sum to at most 1. Each filled short leg has a variable
//! that is at least what it pays there; each long leg counts by the positive parts of its entries,
//! until a sign of what it pays is taken. There is no code here: each law is the contract of a
//! function that does nothing.
#![tactic(auto)]

pub mod node_laws;
pub mod optimum;
pub mod program;
