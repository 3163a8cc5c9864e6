// Replies without lists, added to a line. Most lines are such, so what stands between their numbers
// is added at once.
ghost use Rattle.std.specs.Prelude.{◌≡◌, ◌++◌, OnOk, codes, true};
ghost use Rattle.reply_print.specs.BatchPieces.{natural};
ghost use Rattle.reply_print.specs.Piece.{Fields, field as field_behind, fields_text, object, piece_text};
ghost use Rattle.reply_print.specs.ReplyPieces.{balance_piece, field_field, listed_piece, moved_piece, opened_piece, ordered_piece, refused_piece};

use crate::printing::{add_behind, add_whole, append};
use crate::words::reason;
use std::alloc::AllocError;

pub(crate) fn add_opened(text: &mut Vec<u8>, line: u32, account: u32) -> Result<(), AllocError>
    ensures { OnOk result (text.new.items
        ≡ text.old.items ++ piece_text (opened_piece line account)) }
{
    add_behind(text, "{\"account\":", &u64::from(account))?;
    add_behind(text, ",\"line\":", &u64::from(line))?;
    append(text, ",\"reply\":\"opened\"}")
}

// An account's new balance, under the word of the reply.
pub(crate) fn add_moved(
    text: &mut Vec<u8>,
    reply: &str,
    line: u32,
    account: u32,
    balance: &i128,
) -> Result<(), AllocError>
    ensures { OnOk result (text.new.items
        ≡ text.old.items ++ piece_text (moved_piece reply.now line account balance.now)) }
{
    add_behind(text, "{\"account\":", &u64::from(account))?;
    add_whole(text, ",\"balance\":\"", balance)?;
    add_behind(text, "\",\"line\":", &u64::from(line))?;
    append(text, ",\"reply\":\"")?;
    append(text, reply)?;
    append(text, "\"}")
}

pub(crate) fn add_listed(
    text: &mut Vec<u8>,
    line: u32,
    market: u32,
    underlyings: u8,
) -> Result<(), AllocError>
    ensures { OnOk result (text.new.items
        ≡ text.old.items ++ piece_text (listed_piece line market underlyings)) }
{
    add_behind(text, "{\"line\":", &u64::from(line))?;
    add_behind(text, ",\"market\":", &u64::from(market))?;
    add_behind(
        text,
        ",\"reply\":\"listed\",\"underlyings\":",
        &u64::from(underlyings),
    )?;
    append(text, "}")
}

// What became of an order, up to the word of the reply.
#[inline(always)]
fn add_order(text: &mut Vec<u8>, line: u32, order: u64) -> Result<(), AllocError>
    ensures { OnOk result ((fs : Fields) → text.new.items ++ fields_text true fs
        ≡ text.old.items ++ piece_text (object (field_behind (codes "line") (natural line)
        (field_behind (codes "order") (natural order) fs)))) }
{
    add_behind(text, "{\"line\":", &u64::from(line))?;
    add_behind(text, ",\"order\":", &order)
}

pub(crate) fn add_placed(text: &mut Vec<u8>, line: u32, order: u64) -> Result<(), AllocError>
    ensures { OnOk result (text.new.items
        ≡ text.old.items ++ piece_text (ordered_piece (codes "placed") line order)) }
{
    add_order(text, line, order)?;
    append(text, ",\"reply\":\"placed\"}")
}

pub(crate) fn add_cancelled(text: &mut Vec<u8>, line: u32, order: u64) -> Result<(), AllocError>
    ensures { OnOk result (text.new.items
        ≡ text.old.items ++ piece_text (ordered_piece (codes "cancelled") line order)) }
{
    add_order(text, line, order)?;
    append(text, ",\"reply\":\"cancelled\"}")
}

pub(crate) fn add_balance(
    text: &mut Vec<u8>,
    line: u32,
    account: u32,
    balance: &i128,
    reserved: &i128,
) -> Result<(), AllocError>
    ensures { OnOk result (text.new.items
        ≡ text.old.items ++ piece_text (balance_piece line account balance.now reserved.now)) }
{
    add_behind(text, "{\"account\":", &u64::from(account))?;
    add_whole(text, ",\"balance\":\"", balance)?;
    add_behind(text, "\",\"line\":", &u64::from(line))?;
    add_whole(text, ",\"reply\":\"balance\",\"reserved\":\"", reserved)?;
    append(text, "\"}")
}

// A refusal up to its line, with the field where it names one.
fn add_head(text: &mut Vec<u8>, is_range: bool, field: u8, line: u32) -> Result<(), AllocError>
    ensures { OnOk result ((fs : Fields) → text.new.items ++ fields_text true fs
        ≡ text.old.items ++ piece_text (object (field_field is_range field
        (field_behind (codes "line") (natural line) fs)))) }
{
    if is_range {
        add_behind(text, "{\"field\":", &u64::from(field))?;
        add_behind(text, ",\"line\":", &u64::from(line))
    } else {
        add_behind(text, "{\"line\":", &u64::from(line))
    }
}

pub(crate) fn add_refused(
    text: &mut Vec<u8>,
    line: u32,
    number: u32,
    field: u8,
) -> Result<(), AllocError>
    ensures { OnOk result (text.new.items
        ≡ text.old.items ++ piece_text (refused_piece line number field)) }
{
    add_head(text, number == 8, field, line)?;
    add_behind(text, ",\"number\":", &u64::from(number))?;
    append(text, ",\"reason\":\"")?;
    append(text, reason(number))?;
    append(text, "\",\"reply\":\"refused\"}")
}
