//! Tells of each clear of a session which numbers its run fits: a word a clear, from command lines
//! on standard input. The session itself clears nothing, so its orders stay for the next clear.
ghost use Rattle.command_text.specs.Within.{BodyIsWithin};

use anyhow::{Context, Result, bail};
use byte_streams::{StdSource, SureSink, read_all};
use command_text::{Body, Command};
use exchange_core::{Exchange, Reply};
use frac::Frac64;
use input_commands::commands;
use limits::MAX_BYTES;
use narrow_clearing::{Pass, clear_first};
use std::alloc::Global;

// Takes the exchange one line further, or tells the pass in which the line's batch is cleared.
fn pass_of(alloc: Global, exchange: &mut Exchange, said: &Body) -> Result<Option<Pass>>
    requires { BodyIsWithin said.now }
{
    match said {
        Body::Command(Command::Clear { market, budget }) => {
            let batch = exchange.live(*market)?;
            let (_, pass) = clear_first::<Frac64>(alloc, &batch, *budget)?;
            Ok(Some(pass))
        }
        Body::Command(command) => match exchange.step(command)? {
            Reply::Refused { number, .. } => bail!("refused as {number}"),
            _ => Ok(None),
        },
        _ => bail!("a command"),
    }
}

fn word_of(pass: &Pass) -> &'static str {
    match pass {
        Pass::Narrow => "narrow",
        Pass::Broad => "broad",
    }
}

/// Prints the pass of each clear.
pub fn print_passes(rt: &HostRuntime) -> Result<()> {
    let alloc = rt.alloc();
    let mut source = StdSource::new(rt.reader());
    let input = read_all(alloc, &mut source, &SureSink::new(), MAX_BYTES)
        .ok()
        .context("an input")?;
    let mut exchange = Exchange::new(alloc);
    for line in &commands(alloc, input.as_slice())? {
        if let Some(pass) = pass_of(alloc, &mut exchange, &line.body)? {
            println!(rt; "{}", word_of(&pass))?;
        }
    }
    Ok(())
}
