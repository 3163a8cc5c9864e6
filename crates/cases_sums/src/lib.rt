//! Fractions, payoffs, premiums, programs and searches: cases from outside, each from the text of
//! what is asked to the text of the answer.
#![tactic(auto)]

#[cfg(test)]
mod arenas;
#[cfg(test)]
mod fraction_table;
#[cfg(test)]
mod fractions;
#[cfg(test)]
mod payoff_table;
#[cfg(test)]
mod payoffs;
#[cfg(test)]
mod printing;
#[cfg(test)]
mod program_table;
#[cfg(test)]
mod programs;
#[cfg(test)]
mod reading;
#[cfg(test)]
mod rows;
#[cfg(test)]
mod searches;
#[cfg(test)]
mod signs;
