//! What is quoted and priced, added to a line.
ghost use Rattle.std.specs.Prelude.{true, ◌≡◌, ◌++◌, OnOk};
ghost use Rattle.reply_print.specs.Piece.{Fields, field, fields_text, piece_text, words};
ghost use Rattle.proposal_text.specs.PricePieces.{price_text, priced_piece, quoted_piece};

use itoa::Buffer;
use reply_print::printing::{add_key, add_number, add_words, append};
use std::alloc::AllocError;

/// The price of a further order, as it is quoted.
#[derive(Clone, Copy, Debug, PartialEq, Eq)]
pub enum QuotedPrice {
    /// The worst price at which it raises the greatest surplus, in ticks.
    At { price: u64 },
    /// It raises it at no price.
    Never,
    /// A clear that would have told it stopped.
    Unmarked,
}

// Adds the word of a price.
fn add_price_word(line: &mut Vec<u8>, price: QuotedPrice) -> Result<(), AllocError>
    ensures { OnOk result (line.new.items ≡ line.old.items ++ price_text price) }
{
    match price {
        QuotedPrice::At { price } => append(line, Buffer::new().format(price)),
        QuotedPrice::Never => append(line, "never"),
        QuotedPrice::Unmarked => append(line, "unmarked"),
    }
}

// Adds the field of a price.
fn add_price(
    line: &mut Vec<u8>,
    later: bool,
    key: &str,
    price: QuotedPrice,
) -> Result<(), AllocError>
    ensures { OnOk result ((fs : Fields) → line.new.items ++ fields_text true fs
        ≡ line.old.items ++ fields_text later (field key.now (words (price_text price)) fs)) }
{
    add_key(line, later, key)?;
    append(line, "\"")?;
    add_price_word(line, price)?;
    append(line, "\"")
}

// Adds the quote of a market.
pub(crate) fn add_quoted(
    line: &mut Vec<u8>,
    at: u32,
    market: u32,
    bid: QuotedPrice,
    ask: QuotedPrice,
) -> Result<(), AllocError>
    ensures { OnOk result (line.new.items
        ≡ line.old.items ++ piece_text (quoted_piece at market bid ask)) }
{
    append(line, "{")?;
    add_price(line, false, "ask", ask)?;
    add_price(line, true, "bid", bid)?;
    add_number(line, true, "line", u64::from(at))?;
    add_number(line, true, "market", u64::from(market))?;
    add_words(line, true, "reply", "quoted")?;
    append(line, "}")
}

// Adds the prices of so many options in a market: `ask` is that of a further buy, and `bid` that of
// a further sell.
pub(crate) fn add_priced(
    line: &mut Vec<u8>,
    at: u32,
    market: u32,
    quantity: u32,
    ask: QuotedPrice,
    bid: QuotedPrice,
) -> Result<(), AllocError>
    ensures { OnOk result (line.new.items
        ≡ line.old.items ++ piece_text (priced_piece at market quantity ask bid)) }
{
    append(line, "{")?;
    add_price(line, false, "ask", ask)?;
    add_price(line, true, "bid", bid)?;
    add_number(line, true, "line", u64::from(at))?;
    add_number(line, true, "market", u64::from(market))?;
    add_number(line, true, "quantity", u64::from(quantity))?;
    add_words(line, true, "reply", "priced")?;
    append(line, "}")
}
