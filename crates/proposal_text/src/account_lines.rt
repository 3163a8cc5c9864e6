// What is told of accounts and their needs, added to a line.
ghost use Rattle.std.specs.Prelude.{◌≡◌, ◌++◌, OnOk};
ghost use Rattle.reply_print.specs.Piece.{piece_text};
ghost use Rattle.proposal_text.specs.Pieces.{needs_piece, secured_piece, uncovered_piece};

use crate::needs::{Need, add_need};
use crate::replies::AccountNeed;
use reply_print::printing::{add_field, add_number, add_words, append};
use std::alloc::AllocError;

// Adds that an account is secured.
pub(crate) fn add_secured(
    line: &mut Vec<u8>,
    at: u32,
    account: u32,
    need: u128,
) -> Result<(), AllocError>
    ensures { OnOk result (line.new.items
        ≡ line.old.items ++ piece_text (secured_piece at account need)) }
{
    append(line, "{")?;
    add_number(line, false, "account", u64::from(account))?;
    add_number(line, true, "line", u64::from(at))?;
    add_need(line, Need::Amount { amount: need })?;
    add_words(line, true, "reply", "secured")?;
    append(line, "}")
}

// Adds what an account has and needs.
pub(crate) fn add_needs(line: &mut Vec<u8>, at: u32, told: &AccountNeed) -> Result<(), AllocError>
    ensures { OnOk result (line.new.items
        ≡ line.old.items ++ piece_text (needs_piece at told.now)) }
{
    append(line, "{")?;
    add_number(line, false, "account", u64::from(told.account))?;
    add_field(line, true, "balance", &told.balance)?;
    add_number(line, true, "line", u64::from(at))?;
    add_need(line, told.need)?;
    add_words(line, true, "reply", "need")?;
    add_field(line, true, "secured", &told.secured)?;
    append(line, "}")
}

// Adds the refusal for want of what an account needs.
pub(crate) fn add_uncovered(line: &mut Vec<u8>, at: u32, need: Need) -> Result<(), AllocError>
    ensures { OnOk result (line.new.items
        ≡ line.old.items ++ piece_text (uncovered_piece at need)) }
{
    append(line, "{")?;
    add_number(line, false, "line", u64::from(at))?;
    add_need(line, need)?;
    add_number(line, true, "number", 14)?;
    add_words(line, true, "reason", "Margin")?;
    add_words(line, true, "reply", "refused")?;
    append(line, "}")
}
