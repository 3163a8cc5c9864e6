//! The model of a certified clearing, whole and in one folder: `specs/` is all that a reader has to
//! believe.
//!
//! Fills and what they owe and earn (`Clearing`), balance by bundle (`Balance`), legs (`Legs`),
//! measures and bounds (`Measure`), closed trees of signs (`Tree`), line covers (`Line`), a tree as
//! it is written (`Written`), and what a certificate of fractions says of a batch (`Certificate`).
//! The definitions are over natural and whole numbers without a limit; fractions are amounts over
//! one common denominator. There is no code here: `market_laws` has the laws, the checkers decide
//! the definitions.
#![tactic(auto)]
