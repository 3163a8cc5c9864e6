// What a line may be.
ghost use Rattle.std.specs.Prelude.{IfOk, IfSome};
ghost use Rattle.reply_print.specs.Within.{IsWithin};

use crate::cursor::Cursor;
use crate::ranges::is_within;
use crate::replies::line_and_reply;
use crate::stop::Unread;
use reply_print::Reply;
use std::alloc::{AllocError, Global};

/// A guess at the line and the reply whose print this text is, or none. All that is promised of a
/// guess is that it is within its ranges. The error is want of memory.
pub fn guess(alloc: Global, text: &[u8]) -> Result<Option<(u32, Reply)>, AllocError>
    ensures { IfOk result (λ o. IfSome o (λ p. IsWithin p.0 p.1)) }
{
    match line_and_reply(alloc, &mut Cursor::new(text)) {
        Ok((line, reply)) => {
            if is_within(line, &reply) {
                Ok(Some((line, reply)))
            } else {
                Ok(None)
            }
        }
        Err(Unread::Unlike) => Ok(None),
        Err(Unread::Memory) => Err(AllocError),
    }
}
