//! The exchange program on its words and standard streams.
#![tactic(auto)]

use byte_streams::{StdSink, StdSource};
use exchange_program::{Status, exchange};
use std::io;
use std::process::ExitCode;

// The words after the program's name.
fn words_of(rt: &HostRuntime) -> Result<Vec<String>, Status> {
    let mut words = Vec::new(rt.alloc());
    for word in std::env::args(rt)
        .map_err(|error| Status::of_unread_words(error.kind()))?
        .skip(1)
    {
        words.push(word).map_err(|_| Status::Memory)?;
    }
    Ok(words)
}

// Runs the program over standard input and standard output.
fn run_on_standard_streams(rt: &HostRuntime) -> Status {
    let words = match words_of(rt) {
        Ok(words) => words,
        Err(status) => return status,
    };
    let mut source = StdSource::new(rt.reader());
    let mut sink = StdSink::new(io::writer(rt));
    exchange(rt.alloc(), &words, &mut source, &mut sink)
}

fn main(rt: HostRuntime) -> ExitCode {
    let status = run_on_standard_streams(&rt);
    if status != Status::Done {
        let _ = rt.eprintln(status.text());
    }
    ExitCode::from(status.code())
}
