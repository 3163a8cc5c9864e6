// The run over the lines of a text.
ghost use Rattle.std.specs.Prelude.{◌≡◌, map, IfOk, OnOk};
ghost use Rattle.std.specs.List.{All};
ghost use Rattle.command_text.specs.Lines.{IsPlaceIn, line_at};
ghost use Rattle.exchange_core.specs.LineReplies.{replies_from};
ghost use Rattle.demo_run.specs.Tally.{tally_of};

use crate::tally::Tally;
use command_text::{RawLine, body_of};
use exchange_core::{Exchange, reply_to};
use std::alloc::{AllocError, Global};

// Counts the replies to the lines at these places, in order.
pub(crate) fn tally_replies(
    alloc: Global,
    exchange: &mut Exchange,
    input: &[u8],
    lines: &[RawLine],
) -> Result<Tally, AllocError>
    requires { All (IsPlaceIn input.now) lines.now }
    ensures tally { IfOk result (λ tally. tally
        ≡ tally_of (replies_from exchange.old (map (line_at input.now) lines.now)).0) }
    ensures state { OnOk result (exchange.new
        ≡ (replies_from exchange.old (map (line_at input.now) lines.now)).1) }
{
    let mut tally = Tally::new();
    for line in lines {
        let said = body_of(alloc, line.text(input))?;
        let reply = reply_to(exchange, &said)?;
        tally.count(&reply);
    }
    Ok(tally)
}
