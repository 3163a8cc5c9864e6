//! The answer to one line.
ghost use Rattle.std.specs.Prelude.{◌≡◌, IfOk};
ghost use Rattle.guarded_lines.specs.Output.{guarded_line};

use crate::replies::reply_to;
use command_text::read_line;
use command_text::words::GUARDED;
use exchange_core::Exchange;
use proposal_text::print_line;
use std::alloc::{AllocError, Global};

/// Takes the exchange one line further, and answers what is written for a line of exactly these
/// bytes with this number: the line of its reply and a line feed. A line that asks for a margin
/// changes nothing, nor does a withdrawal that is refused. The only error is want of memory.
pub fn answer(
    alloc: Global,
    exchange: &mut Exchange,
    number: u32,
    line: &[u8],
) -> Result<Vec<u8>, AllocError>
    ensures { IfOk result (λ text.
        (text.items, exchange.new) ≡ guarded_line number exchange.old line.now) }
{
    let said = read_line(alloc, &GUARDED, line)?;
    let reply = reply_to(alloc, exchange, said)?;
    print_line(alloc, number, &reply)
}
