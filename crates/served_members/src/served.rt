// The lines of `serve`, as what answers what sessions say.
ghost use Rattle.std.specs.Prelude.{◌≡◌};
ghost use Rattle.secured_lines.specs.Asked.{said_asks};
ghost use Rattle.secured_lines.specs.Output.{secured_said};
ghost use Rattle.secured_lines.specs.SecuredState.{empty_secured, exchange_in, with_opened};
ghost use Rattle.served_members.specs.Members.{IsSoundServed};

use command_text::Request;
use command_text::asked::Fault;
use exchange_core::Exchange;
use member_lines::{AnswersRequests, AsksRequests};
use secured_lines::SecuredLines;
use std::alloc::{AllocError, Global};
use std::marker::Model;

/// An exchange that answers all lines, over accounts that may be secured, by what the lines say.
#[derive(Drop)]
pub struct ServedLines {
    lines: SecuredLines,
}

impl Model for ServedLines {
    ghost use Rattle.secured_lines.specs.SecuredState.{SecuredState};

    ghost Value = { SecuredState };

    ghost view = { λ s. s.lines };
}

impl ServedLines {
    /// Before the first line. Takes no memory.
    pub fn new(alloc: Global) -> Self
        ensures { result ≡ empty_secured }
    {
        ServedLines {
            lines: SecuredLines::new(alloc),
        }
    }
}

impl AnswersRequests for ServedLines {
    ghost exchange_in = { exchange_in };

    ghost said_step = { secured_said };

    ghost with_opened = { with_opened };

    ghost sound = { IsSoundServed };

    fn exchange(&self) -> &Exchange {
        self.lines.exchange()
    }

    fn answer_said(
        &mut self,
        alloc: Global,
        number: u32,
        line: &[u8],
        said: Result<Request, Fault>,
    ) -> Result<Vec<u8>, AllocError> {
        self.lines.answer_said(alloc, number, line, said)
    }

    fn secure_opened(&mut self, account: u32) -> Result<(), AllocError> {
        self.lines.secure_opened(account)
    }
}

impl AsksRequests for ServedLines {
    ghost said_asks = { said_asks };

    fn ask_said(
        &self,
        alloc: Global,
        number: u32,
        line: &[u8],
        said: Result<Request, Fault>,
    ) -> Result<Vec<u8>, AllocError> {
        self.lines.ask_said(alloc, number, line, said)
    }
}
