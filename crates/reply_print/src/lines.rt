// The lines of replies.
ghost use Rattle.std.specs.Prelude.{◌≡◌, ◌++◌, IfOk, OnOk};
ghost use Rattle.reply_print.specs.ReplyPieces.{reply_line};

use crate::Reply;
use crate::cleared_lines::{add_cleared, add_settled};
use crate::small_lines::{
    add_balance, add_cancelled, add_listed, add_moved, add_opened, add_placed, add_refused,
};
use std::alloc::{AllocError, Global};

// A line without lists is shorter, so its text is taken at once.
const ROOM: usize = 192;

// Adds a reply.
fn add_reply(text: &mut Vec<u8>, line: u32, reply: &Reply) -> Result<(), AllocError>
    ensures { OnOk result (text.new.items ≡ text.old.items ++ reply_line line reply.now) }
{
    match reply {
        Reply::Opened { account } => add_opened(text, line, *account),
        Reply::Deposited { account, balance } => {
            add_moved(text, "deposited", line, *account, balance)
        }
        Reply::Withdrawn { account, balance } => {
            add_moved(text, "withdrawn", line, *account, balance)
        }
        Reply::Listed {
            market,
            underlyings,
        } => add_listed(text, line, *market, *underlyings),
        Reply::Placed { order } => add_placed(text, line, *order),
        Reply::Cancelled { order } => add_cancelled(text, line, *order),
        Reply::Cleared {
            number,
            market,
            batch,
            outcome,
        } => add_cleared(text, line, *number, *market, batch, outcome),
        Reply::Settled {
            market,
            lapsed,
            payouts,
        } => add_settled(text, line, *market, *lapsed, payouts.as_slice()),
        Reply::Balance {
            account,
            balance,
            reserved,
        } => add_balance(text, line, *account, balance, reserved),
        Reply::Refused { number, field } => add_refused(text, line, *number, *field),
    }
}

/// The line of a reply, without its line feed.
pub fn print(alloc: Global, line: u32, reply: &Reply) -> Result<Vec<u8>, AllocError>
    ensures { IfOk result (λ text. text.items ≡ reply_line line reply.now) }
{
    let mut text = Vec::with_capacity(alloc, ROOM)?;
    add_reply(&mut text, line, reply)?;
    Ok(text)
}
