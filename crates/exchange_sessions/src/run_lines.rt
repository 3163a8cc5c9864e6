// The lines of a run, between two reads.
ghost use Rattle.std.specs.Prelude.{◌≡◌, ◌<◌};
ghost use Rattle.exchange_core.specs.ExchangeState.{empty_exchange};
ghost use Rattle.exchange_lines.specs.Output.{line_output};
ghost use Rattle.live_lines.specs.Answering.{by_step};

use exchange_core::Exchange;
use live_lines::{LineAnswers, LineSteps};
use std::alloc::{AllocError, Global};
use std::marker::Model;

// An exchange that answers each line as a run does.
#[derive(Drop)]
pub(crate) struct RunLines {
    exchange: Exchange,
}

impl Model for RunLines {
    ghost use Rattle.exchange_core.specs.ExchangeState.{ExchangeState};

    ghost Value = { ExchangeState };

    ghost view = { λ s. s.exchange };
}

impl RunLines {
    // Before the first line. Takes no memory.
    pub(crate) fn new(alloc: Global) -> Self
        ensures { result ≡ empty_exchange }
    {
        RunLines {
            exchange: Exchange::new(alloc),
        }
    }
}

impl LineAnswers for RunLines {
    ghost answers = { by_step line_output };

    fn answer(&mut self, alloc: Global, number: u32, line: &[u8]) -> Result<Vec<u8>, AllocError> {
        exchange_lines::answer(alloc, &mut self.exchange, number, line)
    }

    ghost goes_on = { λ _ _ _. (tt, λ _ _ _ _. tt) };
}

impl LineSteps for RunLines {
    ghost step = { line_output };

    ghost steps = { λ _ _ _ _ _. (λ is. is, λ is. is) };
}
