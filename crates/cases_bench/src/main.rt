//! Measures parts of the program and tries them: by the word `fractions` the times of the operations
//! of fractions, by the word `passes` which numbers the clears of a session on standard input fit,
//! by the word `growth` steps that find no memory.
#![tactic(auto)]

mod fractions;
mod growth;
mod operands;
mod passes;
mod timing;

use std::env;

fn main(rt: HostRuntime) -> anyhow::Result<()> {
    for word in env::args(&rt)?.skip(1) {
        match word.as_str() {
            "fractions" => fractions::print_fractions(&rt)?,
            "growth" => growth::advance_session(&rt)?,
            "passes" => passes::print_passes(&rt)?,
            _ => println!(rt; "usage: cases_bench fractions, growth or passes")?,
        }
    }
    Ok(())
}
