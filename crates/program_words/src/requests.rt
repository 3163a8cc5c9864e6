// Requests, and why there is none.
ghost use Rattle.std.specs.Prelude.{◌≡◌};
ghost use Rattle.program_words.specs.declared.requests.WordsFault.TheVariants.{Memory};

use std::alloc::AllocError;
use thiserror::Error;

/// The greatest seed of a demo.
pub const MAX_SEED: u32 = 4_294_967_295;

/// The greatest number of orders of a demo.
pub const MAX_DEMO_ORDERS: u32 = 10_000;

/// How command lines are answered.
#[derive(Clone, Copy, Debug, PartialEq, Eq)]
pub enum Mode {
    /// Each by its reply.
    Run,
    /// As in a run, and questions for quotes besides.
    Quotes,
    /// As in a run, and questions for margins besides; a withdrawal leaves the balance that the
    /// account needs.
    Guarded,
}

/// What is served between two reads.
#[derive(Clone, Copy, Debug, PartialEq, Eq)]
pub enum Served {
    /// Lines of every kind: those of all modes.
    Lines,
    /// Messages of many sessions, whose bodies are such lines.
    Sessions,
    /// Such messages, by the rule of who may say what.
    Members,
}

/// What wrote the lines that are reported on.
#[derive(Clone, Copy, Debug, PartialEq, Eq)]
pub enum Journal {
    /// A run.
    Run,
    /// What is served, lines or messages.
    Served,
}

/// What the program is asked to do.
#[derive(Clone, Copy, Debug, PartialEq, Eq)]
pub enum Request {
    /// Reads command lines and writes a reply for each, in a mode.
    Lines(Mode),
    /// Reads reply lines and reports on them.
    Check(Journal),
    /// Reads messages of many sessions and answers each.
    Sessions,
    /// Reads lines or messages and answers each between two reads.
    Serve(Served),
    /// Reads reply lines and proposes for each that tells a book, between two reads.
    Propose,
    /// Runs a text of `count` orders that is made from the seed, and writes its summary.
    Demo { seed: u32, count: u32 },
}

/// Why no request was read.
#[derive(Clone, Copy, Debug, PartialEq, Eq, Error)]
pub enum WordsFault {
    /// The words have none of the forms.
    #[error("usage: exchange run, exchange check, or exchange demo SEED COUNT")]
    Usage,
    #[error("out of memory")]
    Memory,
}

impl From<AllocError> for WordsFault {
    ghost from_gives = { λ _ e. e ≡ Memory };

    fn from(_: AllocError) -> Self {
        WordsFault::Memory
    }
}
