// The answer to one line.
ghost use Rattle.std.specs.Prelude.{◌≡◌, IfOk};
ghost use Rattle.quote_lines.specs.Output.{quotes_line};

use crate::replies::reply_to;
use command_text::read_line;
use command_text::words::QUOTES;
use exchange_core::Exchange;
use proposal_text::print_line;
use std::alloc::{AllocError, Global};

/// Takes the exchange one line further, and answers what is written for a line of exactly these
/// bytes with this number, which may ask for a quote.
pub fn answer(
    alloc: Global,
    exchange: &mut Exchange,
    number: u32,
    line: &[u8],
) -> Result<Vec<u8>, AllocError>
    ensures { IfOk result (λ text.
        (text.items, exchange.new) ≡ quotes_line number exchange.old line.now) }
{
    let said = read_line(alloc, &QUOTES, line)?;
    let reply = reply_to(alloc, exchange, said)?;
    print_line(alloc, number, &reply)
}
