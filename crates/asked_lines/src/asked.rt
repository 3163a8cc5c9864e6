// A way of answering lines, between which some ask.
ghost use Rattle.std.specs.Prelude.{◌≡◌};
ghost use Rattle.live_lines.specs.Answering.{by_step};
ghost use Rattle.asked_lines.specs.Asked.{asked_step, asking_first};
ghost use Rattle.asked_lines.specs.Standing.{StandsAsked, stands_asked};

use crate::questions::AnswersQuestions;
use live_lines::{LineAnswers, LineSteps};
use std::alloc::{AllocError, Global};
use std::marker::Model;

/// How many lines asked, and what answers the others, each with its number among them.
#[derive(Drop)]
pub struct AskedLines<A: AnswersQuestions> {
    asked: u32,
    inner: A,
}

impl<A: AnswersQuestions> Model for AskedLines<A> {
    ghost use Rattle.asked_lines.specs.Asked.{AskedState};

    ghost Value = { AskedState A };

    ghost view = { λ s. record { asked = s.asked; inner = s.inner } };
}

impl<A: AnswersQuestions> AskedLines<A> {
    /// No line asked. Takes no memory.
    pub fn new(inner: A) -> Self
        ensures { result ≡ asking_first inner }
    {
        AskedLines { asked: 0, inner }
    }
}

impl<A: AnswersQuestions> LineAnswers for AskedLines<A> {
    ghost answers = { by_step (asked_step A.asks A.step) };

    ghost stands = { StandsAsked A.stands };

    fn answer(&mut self, alloc: Global, number: u32, line: &[u8]) -> Result<Vec<u8>, AllocError> {
        let number = number - self.asked;
        if let [b'?', body @ ..] = line {
            let text = self.inner.ask(alloc, number, body)?;
            self.asked += 1;
            return Ok(text);
        }
        self.inner.answer(alloc, number, line)
    }

    ghost goes_on = { stands_asked A.asks A.step A.answers A.steps A.stands A.goes_on };
}

impl<A: AnswersQuestions> LineSteps for AskedLines<A> {
    ghost step = { asked_step A.asks A.step };

    ghost steps = { λ _ _ _ _ _. (λ is. is, λ is. is) };
}
