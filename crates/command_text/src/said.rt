//! What a line says.
ghost use Rattle.std.specs.Prelude.{◌≡◌, map, IfOk, option_map};
ghost use Rattle.command_text.specs.Fields.{fields_of_line};
ghost use Rattle.command_text.specs.Refused.{IsRefusedBy};
ghost use Rattle.command_text.specs.Said.{as_command, proposed_in, said_by, said_by_fields, said_in};
ghost use Rattle.command_text.specs.Trades.{with_some};
ghost use Rattle.command_text.specs.Within.{IsInside, RequestIsWithin};

use crate::asked::{Fault, text_at};
use crate::asking::{
    book_request, close_request, margin_request, need_request, positions_request, price_request,
    propose_request, proposed_text, quote_request, reopen_request, secure_request, try_request,
};
use crate::bundles::bundle;
use crate::command::Command;
use crate::field_lists::line_fields;
use crate::plain::{balance, cancel, clear, deposit, list, open, withdraw};
use crate::requests::Request;
use crate::trades::{settle, trade};
use crate::words::{LineWord, takes_proposals, word_among};
use form::Side;
use std::alloc::{AllocError, Global};

fn as_command(said: Result<Command, Fault>) -> Result<Request, Fault>
    ensures { result ≡ as_command said }
{
    match said {
        Ok(command) => Ok(Request::Command(command)),
        Err(fault) => Err(fault),
    }
}

// What the fields of a line with this word say.
fn said_by(
    alloc: Global,
    word: LineWord,
    fields: &[&[u8]],
) -> Result<Result<Request, Fault>, AllocError>
    ensures { IfOk result (λ said. said ≡ said_by word (map (λ f. f.now) fields.now)) }
{
    Ok(match word {
        LineWord::Open => as_command(open(fields)),
        LineWord::Deposit => as_command(deposit(fields)),
        LineWord::Withdraw => as_command(withdraw(fields)),
        LineWord::Market => as_command(list(fields)),
        LineWord::Buy => as_command(trade(Side::Buy, fields)),
        LineWord::Sell => as_command(trade(Side::Sell, fields)),
        LineWord::Bundle => as_command(bundle(alloc, fields)?),
        LineWord::Cancel => as_command(cancel(fields)),
        LineWord::Clear => as_command(clear(fields)),
        LineWord::Settle => as_command(settle(fields)),
        LineWord::Balance => as_command(balance(fields)),
        LineWord::Quote => quote_request(fields),
        LineWord::Price => price_request(fields),
        LineWord::Try => try_request(fields),
        LineWord::Margin => margin_request(fields),
        LineWord::Book => book_request(fields),
        LineWord::Positions => positions_request(fields),
        LineWord::Secure => secure_request(fields),
        LineWord::Need => need_request(fields),
        LineWord::Close => close_request(fields),
        LineWord::Reopen => reopen_request(fields),
        LineWord::Propose => Err(Fault::Syntax),
    })
}

// What the fields of a line say, the first of which is to be one of these words.
fn said_by_fields(
    alloc: Global,
    words: &[LineWord],
    fields: &[&[u8]],
) -> Result<Result<Request, Fault>, AllocError>
    ensures { IfOk result (λ said.
        said ≡ said_by_fields words.now (map (λ f. f.now) fields.now)) }
{
    match word_among(words, text_at(fields, 1)) {
        Some(word) => said_by(alloc, word, fields),
        None => Ok(Err(Fault::Syntax)),
    }
}

// What stands behind the word of a proposal, where it may begin a line.
fn proposed_in<'a>(words: &[LineWord], line: &'a [u8]) -> Option<&'a [u8]>
    ensures { option_map (λ text. text.now) result ≡ proposed_in words.now line.now }
{
    if takes_proposals(words) {
        proposed_text(line)
    } else {
        None
    }
}

// What a line of fields says.
fn said_of_fields(
    alloc: Global,
    words: &[LineWord],
    line: &[u8],
) -> Result<Result<Request, Fault>, AllocError>
    ensures { IfOk result (λ said.
        said ≡ with_some (fields_of_line line.now) (said_by_fields words.now)) }
{
    match line_fields(alloc, line)? {
        Some(fields) => said_by_fields(alloc, words, &fields),
        None => Ok(Err(Fault::Syntax)),
    }
}

/// What a line of exactly these bytes says where these words may begin it: what it asks, or why it
/// is refused. No carriage return is taken away, and no first bytes are skipped. The only error is
/// want of memory.
pub fn read_line(
    alloc: Global,
    words: &[LineWord],
    line: &[u8],
) -> Result<Result<Request, Fault>, AllocError>
    ensures said { IfOk result (λ said. said ≡ said_in words.now line.now) }
    ensures within { IfOk result (λ said. IfOk said RequestIsWithin) }

    // A proposal stands in the line.
    ensures inside { IfOk result (λ said. IfOk said (IsInside line.now)) }

    // It is refused as Syntax, or as Range with its field, exactly by two sentences.
    ensures refused { IfOk result (λ said. IsRefusedBy words.now line.now said) }
{
    match proposed_in(words, line) {
        Some(text) => Ok(propose_request(text)),
        None => said_of_fields(alloc, words, line),
    }
}
