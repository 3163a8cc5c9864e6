//! Lines of replies about proposals that are read.
ghost use Rattle.std.specs.Prelude.{◌≡◌, ◌⊎◌, IfErr, IfOk, Err, Ok};
ghost use Rattle.serde_json.specs.View.{view};
ghost use Rattle.reply_text.specs.Tests.{value_by};
ghost use Rattle.reply_text.specs.declared.faults.LineFault.TheVariants.{Memory};
ghost use Rattle.proposal_text.specs.ReplyValues.{IsProposalLineOf, proposal_replies, proposal_tests, reply_reading};

use crate::asked_shapes::{
    margin_numbers, margin_shape, priced_shape, prices_numbers, prices_shape,
};
use crate::asked_values::{margin_from, priced_from, quoted_from};
use crate::printing::print_proposal_reply;
use crate::replies::ProposalReply;
use crate::reply_shapes::{
    are_numbered, book_shape, bounded_shape, closed_shape, needs_numbers, needs_shape,
    positions_shape, proposed_numbers, proposed_shape, refused_numbers, refused_shape,
    reopened_shape, secured_shape, tried_numbers, tried_shape,
};
use crate::reply_values::{
    book_from, bounded_from, closed_from, needs_from, positions_from, proposed_from, refused_from,
    reopened_from, secured_from, tried_from,
};
use crate::submission_text::proposal_numbers;
use reply_print::cleared_numbers::has_fraction;
use reply_print::look::{has_at, has_whole_text, number_at};
use reply_text::reading::json_value;
use reply_text::tested::read_value;
use reply_text::{LineFault, TestedReply};
use serde_json::Value;
use std::alloc::{AllocError, Global};

impl TestedReply for ProposalReply {
    ghost tests = { proposal_replies };

    fn has_shape(value: &Value, word: &str) -> bool {
        match word {
            "book" => book_shape(value),
            "positions" => positions_shape(value),
            "proposed" => proposed_shape(value),
            "cleared" => bounded_shape(value),
            "closed" => closed_shape(value),
            "reopened" => reopened_shape(value),
            "secured" => secured_shape(value),
            "need" => needs_shape(value),
            "quoted" => prices_shape(value, 5),
            "priced" => priced_shape(value),
            "margin" => margin_shape(value),
            "tried" => tried_shape(value),
            "refused" => refused_shape(value, number_at(value, "number")),
            _ => false,
        }
    }

    fn has_numbers(value: &Value, word: &str) -> bool {
        match word {
            "positions" => has_at(value, "positions", are_numbered),
            "proposed" => proposed_numbers(value),
            "cleared" => has_fraction(value, "bound") && proposal_numbers(value),
            "secured" => has_whole_text(value, "need"),
            "need" => needs_numbers(value),
            "quoted" | "priced" => prices_numbers(value),
            "margin" => margin_numbers(value),
            "tried" => tried_numbers(value),
            "refused" => refused_numbers(value, number_at(value, "number")),
            _ => true,
        }
    }

    fn reply_from(alloc: Global, value: &Value, word: &str) -> Result<Option<Self>, AllocError> {
        match word {
            "book" => book_from(alloc, value),
            "positions" => positions_from(alloc, value),
            "proposed" => Ok(proposed_from(value)),
            "cleared" => bounded_from(alloc, value),
            "closed" => Ok(closed_from(value)),
            "reopened" => Ok(reopened_from(value)),
            "secured" => Ok(secured_from(value)),
            "need" => Ok(needs_from(value)),
            "quoted" => Ok(quoted_from(value)),
            "priced" => Ok(priced_from(value)),
            "margin" => margin_from(alloc, value),
            "tried" => Ok(tried_from(value)),
            _ => Ok(refused_from(value)),
        }
    }

    fn print(&self, alloc: Global, line: u32) -> Result<Vec<u8>, AllocError> {
        print_proposal_reply(alloc, line, self)
    }
}

/// The tests on the value of a text, of which the reply's word is one of these lines'. Ok and the
/// errors as `read_proposal_reply` has them.
pub fn read_proposal_value(
    alloc: Global,
    text: &[u8],
    value: &Value,
) -> Result<(u32, ProposalReply), LineFault>
    ensures ok { IfOk result (λ p. value_by proposal_tests text.now (view value.now)
        ≡ Ok (p.0, p.1)) }
    ensures err { IfErr result (λ e. (e ≡ Memory)
        ⊎ (value_by proposal_tests text.now (view value.now) ≡ Err e)) }
{
    read_value::<ProposalReply>(alloc, text, value)
}

/// Reads a line: its number and its reply about proposals. Ok exactly where the text is the print
/// of the pair that is answered, and that pair is within its ranges; else the first test that the
/// text fails, in the order of the faults. `Memory` where memory is wanting.
pub fn read_proposal_reply(alloc: Global, text: &[u8]) -> Result<(u32, ProposalReply), LineFault>
    ensures line { IfOk result (λ p. IsProposalLineOf text.now p.0 p.1) }
    ensures ok { IfOk result (λ p. reply_reading text.now ≡ Ok (p.0, p.1)) }
    ensures err { IfErr result (λ e. (e ≡ Memory) ⊎ (reply_reading text.now ≡ Err e)) }
{
    let value = json_value(alloc, text)?;
    read_proposal_value(alloc, text, &value)
}
