// The lines of the words `run`, `quotes` and `guarded`.
ghost use Rattle.std.specs.Prelude.{◌≡◌};
ghost use Rattle.exchange_core.specs.ExchangeState.{empty_exchange};
ghost use Rattle.live_lines.specs.Answering.{by_step};
ghost use Rattle.exchange_program.specs.Modes.{mode_step};

use exchange_core::Exchange;
use live_lines::{LineAnswers, LineSteps};
use program_words::Mode;
use std::alloc::{AllocError, Global};
use std::marker::Model;

// An exchange that answers each line in a mode.
#[derive(Drop)]
pub(crate) struct ModeLines {
    mode: Mode,
    exchange: Exchange,
}

impl Model for ModeLines {
    ghost use Rattle.exchange_program.specs.Modes.{ModeState};

    ghost Value = { ModeState };

    ghost view = { λ s. (s.mode, s.exchange) };
}

impl ModeLines {
    // Before the first line. Takes no memory.
    pub(crate) fn new(alloc: Global, mode: Mode) -> Self
        ensures { result ≡ (mode, empty_exchange) }
    {
        ModeLines {
            mode,
            exchange: Exchange::new(alloc),
        }
    }
}

impl LineAnswers for ModeLines {
    ghost answers = { by_step mode_step };

    fn answer(&mut self, alloc: Global, number: u32, line: &[u8]) -> Result<Vec<u8>, AllocError> {
        let exchange = &mut self.exchange;
        match self.mode {
            Mode::Run => exchange_lines::answer(alloc, exchange, number, line),
            Mode::Quotes => quote_lines::answer(alloc, exchange, number, line),
            Mode::Guarded => guarded_lines::answer(alloc, exchange, number, line),
        }
    }

    ghost goes_on = { λ _ _ _. (tt, λ _ _ _ _. tt) };
}

impl LineSteps for ModeLines {
    ghost step = { mode_step };

    ghost steps = { λ _ _ _ _ _. (λ is. is, λ is. is) };
}
