//! The five tests, over any kind of replies. The only error of a step is want of memory.
ghost use Rattle.std.specs.Prelude.{◌≡◌, ◌⊎◌, ◌↔◌, IfErr, IfOk, IfSome, IsTrue, Err, None, Ok, option_map};
ghost use Rattle.serde_json.specs.View.{view};
ghost use Rattle.reply_text.specs.Tests.{ReplyTests, pair_by, tests_of, value_by};
ghost use Rattle.reply_text.specs.declared.faults.LineFault.TheVariants.{Memory};

use crate::LineFault;
use crate::taking::natural_at;
use limits::MAX_LINES;
use reply_print::look::word_at;
use serde_json::Value;
use std::alloc::{AllocError, Global};

/// A kind of replies, each told on a numbered line.
pub trait TestedReply: Drop {
    /// Their tests, by the word of the reply.
    ghost tests: { ReplyTests Self };

    /// Whether a value has the shape of the reply that this word names.
    fn has_shape(value: &Value, word: &str) -> bool
        ensures { result ≡ tests.shape_by word.now (view value.now) };

    /// Whether the texts of that reply are numbers where they should be. The value has its shape.
    fn has_numbers(value: &Value, word: &str) -> bool
        ensures { result ≡ tests.numbers_by word.now (view value.now) };

    /// That reply, where its numbers are within their ranges.
    fn reply_from(alloc: Global, value: &Value, word: &str) -> Result<Option<Self>, AllocError>
        ensures { IfOk result (λ o. o ≡ tests.reply_by word.now (view value.now)) };

    /// The line of this number that tells the reply, without its line feed.
    fn print(&self, alloc: Global, line: u32) -> Result<Vec<u8>, AllocError>
        ensures { IfOk result (λ text. text.items ≡ tests.line line self.now) };
}

// The line and its reply.
fn pair_from<R: TestedReply>(
    alloc: Global,
    value: &Value,
    word: &str,
) -> Result<Option<(u32, R)>, AllocError>
    ensures { IfOk result (λ o. option_map (λ p. (p.0, p.1)) o
        ≡ pair_by (view value.now) (R.tests.reply_by word.now (view value.now))) }
{
    let Some(line) = natural_at(value, 1, MAX_LINES, "line") else {
        return Ok(None);
    };
    let Some(reply) = R::reply_from(alloc, value, word)? else {
        return Ok(None);
    };
    Ok(Some((line as u32, reply)))
}

/// Whether a line is spelled so.
pub fn is_same(spelled: &[u8], text: &[u8]) -> bool
    ensures { IsTrue result ↔ (spelled.now ≡ text.now) }
{
    spelled == text
}

// The number of a line and its reply, where the text is their print.
pub(crate) fn if_spelled<R: TestedReply>(
    alloc: Global,
    line: u32,
    reply: R,
    text: &[u8],
) -> Result<Option<(u32, R)>, AllocError>
    ensures spelled { IfOk result (λ o. IfSome o (λ p.
        (p.0 ≡ line) × (p.1 ≡ reply) × (R.tests.line line reply ≡ text.now))) }
    ensures other { IfOk result (λ o. o ≡ None → R.tests.line line reply ≡ text.now → ⊥) }
{
    let spelled = reply.print(alloc, line)?;
    if is_same(spelled.as_slice(), text) {
        Ok(Some((line, reply)))
    } else {
        Ok(None)
    }
}

/// The tests on the value of a text: the number of the line and its reply. Ok exactly where the
/// text is the print of the pair that is answered, and that pair is within its ranges; else the
/// first test that the text fails, in the order of the faults. `Memory` where memory is wanting.
pub fn read_value<R: TestedReply>(
    alloc: Global,
    text: &[u8],
    value: &Value,
) -> Result<(u32, R), LineFault>
    ensures ok { IfOk result (λ p. value_by (tests_of R.tests) text.now (view value.now)
        ≡ Ok (p.0, p.1)) }
    ensures err { IfErr result (λ e. (e ≡ Memory)
        ⊎ (value_by (tests_of R.tests) text.now (view value.now) ≡ Err e)) }
{
    let word = word_at(value, "reply");
    if !R::has_shape(value, word) {
        return Err(LineFault::Shape);
    }
    if !R::has_numbers(value, word) {
        return Err(LineFault::Number);
    }
    let Some((line, reply)) = pair_from::<R>(alloc, value, word)? else {
        return Err(LineFault::Range);
    };
    let Some(pair) = if_spelled(alloc, line, reply, text)? else {
        return Err(LineFault::Spelling);
    };
    Ok(pair)
}
