//! The answer to one line.
ghost use Rattle.std.specs.Prelude.{◌≡◌, ◌<◌, ◌==◌, ◌∷◌, ◌++◌, [], false, length, IfOk};
ghost use Rattle.std.specs.List.{list_any};
ghost use Rattle.reply_print.specs.ReplyPieces.{reply_line};
ghost use Rattle.exchange_lines.specs.Output.{line_output};

use command_text::body_of;
use exchange_core::{Exchange, reply_to};
use reply_print::{Reply, print};
use std::alloc::{AllocError, Global};

// The line of a reply and a line feed. By reference, so that the reply is dropped at one place
// alone.
fn print_line(alloc: Global, number: u32, reply: &Reply) -> Result<Vec<u8>, AllocError>
    ensures { IfOk result (λ text. text.items ≡ reply_line number reply.now ++ 10 ∷ []) }
{
    let mut text = print(alloc, number, reply)?;
    text.push(b'\n')?;
    Ok(text)
}

/// Takes the exchange one line further, and answers what is written for a line of exactly these
/// bytes with this number: its reply line and a line feed.
pub fn answer(
    alloc: Global,
    exchange: &mut Exchange,
    number: u32,
    line: &[u8],
) -> Result<Vec<u8>, AllocError>
    requires some { 0 < length line.now }
    requires one_line { list_any (λ b. b == 10) line.now ≡ false }
    ensures { IfOk result (λ text.
        (text.items, exchange.new) ≡ line_output number exchange.old line.now) }
{
    let said = body_of(alloc, line)?;
    let reply = reply_to(exchange, &said)?;
    print_line(alloc, number, &reply)
}
