// What the fields of a line ask that is no command, and what is proposed.
ghost use Rattle.std.specs.Prelude.{◌≡◌, ◌≤◌, ◌<◌, ◌+◌, ◌==◌, IfSome, length, map, option_map, position};
ghost use Rattle.std.specs.List.{All};
ghost use Rattle.command_text.specs.Asked.{IsAsked};
ghost use Rattle.command_text.specs.Numbers.{IsWithin};
ghost use Rattle.command_text.specs.Requests.{book_request, close_request, margin_request, need_request, option_request, positions_request, price_request, propose_request, proposed_for, proposed_text, quote_request, reopen_request, secure_request, strike_at, try_request};

use crate::asked::{Asked, Fault, first_fault, first_of, natural, text_at, value};
use crate::bundles::side;
use crate::numbers::{NumberRead, number};
use crate::options::option_form;
use crate::plain::one_number;
use crate::ranges::{
    ACCOUNT, BUDGET, BUNDLE_PRICE, BUNDLE_QUANTITY, LISTED, MARGIN_BUDGET, MARKET, PRICED,
    PRICED_QUANTITY, QUOTED, STRIKE, TRIED,
};
use crate::requests::{
    MarginRequest, PriceRequest, ProposeRequest, QuoteRequest, Request, TryRequest,
};
use crate::trades::{all_zero, kind, weights};

// The strike at a place.
fn strike_at(place: u8) -> Asked
    ensures { result ≡ strike_at place }
{
    Asked { place, ..STRIKE }
}

// What the fields of a line ask of an option whose kind is at a place, and whose strike and weights
// follow it. So many of the fields are no numbers.
fn option_request(
    fields: &[&[u8]],
    words: usize,
    place: u8,
    asked: &[Asked],
) -> Result<QuoteRequest, Fault>
    requires words { words ≤ 3 }
    requires place { (4 ≤ place) × (place ≤ 7) }
    requires asked { All (λ a. IsAsked 0 a) asked.now }
    requires all { length asked.now + words ≡ place + 9 }
    ensures { result ≡ option_request words place asked.now (map (λ f. f.now) fields.now) }
{
    let count = fields.len();
    let before = usize::from(place) + 1;
    if count < before + 1 || before + 8 < count {
        return Err(Fault::Syntax);
    }
    let Some(kind) = kind(text_at(fields, place)) else {
        return Err(Fault::Syntax);
    };
    let weights = weights(fields, place + 2);
    match first_of(
        first_fault(fields, &asked[..count - words], 0),
        all_zero(&weights, place + 2),
    ) {
        Some(fault) => Err(fault),
        None => Ok(QuoteRequest {
            market: natural(fields, MARKET) as u32,
            budget: natural(fields, BUDGET) as u32,
            form: option_form(
                kind,
                value(fields, strike_at(place + 1)),
                (count - before) as u8,
                &weights,
            ),
        }),
    }
}

pub(crate) fn quote_request(fields: &[&[u8]]) -> Result<Request, Fault>
    ensures { result ≡ quote_request (map (λ f. f.now) fields.now) }
{
    let quote = option_request(fields, 2, 4, &QUOTED)?;
    Ok(Request::Quote(quote))
}

pub(crate) fn price_request(fields: &[&[u8]]) -> Result<Request, Fault>
    ensures { result ≡ price_request (map (λ f. f.now) fields.now) }
{
    let quote = option_request(fields, 2, 5, &PRICED)?;
    Ok(Request::Price(PriceRequest {
        quote,
        quantity: natural(fields, PRICED_QUANTITY) as u32,
    }))
}

pub(crate) fn try_request(fields: &[&[u8]]) -> Result<Request, Fault>
    ensures { result ≡ try_request (map (λ f. f.now) fields.now) }
{
    let Some(side) = side(text_at(fields, 4)) else {
        return Err(Fault::Syntax);
    };
    let quote = option_request(fields, 3, 7, &TRIED)?;
    Ok(Request::Try(TryRequest {
        quote,
        side,
        price: natural(fields, BUNDLE_PRICE),
        quantity: natural(fields, BUNDLE_QUANTITY) as u32,
    }))
}

pub(crate) fn margin_request(fields: &[&[u8]]) -> Result<Request, Fault>
    ensures { result ≡ margin_request (map (λ f. f.now) fields.now) }
{
    if fields.len() != 4 {
        return Err(Fault::Syntax);
    }
    match first_fault(fields, &[ACCOUNT, LISTED, MARGIN_BUDGET], 0) {
        Some(fault) => Err(fault),
        None => Ok(Request::Margin(MarginRequest {
            account: natural(fields, ACCOUNT) as u32,
            market: natural(fields, LISTED) as u32,
            budget: natural(fields, MARGIN_BUDGET) as u32,
        })),
    }
}

pub(crate) fn book_request(fields: &[&[u8]]) -> Result<Request, Fault>
    ensures { result ≡ book_request (map (λ f. f.now) fields.now) }
{
    let market = one_number(fields, MARKET)? as u32;
    Ok(Request::Book { market })
}

pub(crate) fn positions_request(fields: &[&[u8]]) -> Result<Request, Fault>
    ensures { result ≡ positions_request (map (λ f. f.now) fields.now) }
{
    if fields.len() != 3 {
        return Err(Fault::Syntax);
    }
    match first_fault(fields, &[ACCOUNT, LISTED], 0) {
        Some(fault) => Err(fault),
        None => Ok(Request::Positions {
            account: natural(fields, ACCOUNT) as u32,
            market: natural(fields, LISTED) as u32,
        }),
    }
}

pub(crate) fn secure_request(fields: &[&[u8]]) -> Result<Request, Fault>
    ensures { result ≡ secure_request (map (λ f. f.now) fields.now) }
{
    let account = one_number(fields, ACCOUNT)? as u32;
    Ok(Request::Secure { account })
}

pub(crate) fn need_request(fields: &[&[u8]]) -> Result<Request, Fault>
    ensures { result ≡ need_request (map (λ f. f.now) fields.now) }
{
    let account = one_number(fields, ACCOUNT)? as u32;
    Ok(Request::Need { account })
}

pub(crate) fn close_request(fields: &[&[u8]]) -> Result<Request, Fault>
    ensures { result ≡ close_request (map (λ f. f.now) fields.now) }
{
    let market = one_number(fields, MARKET)? as u32;
    Ok(Request::Close { market })
}

pub(crate) fn reopen_request(fields: &[&[u8]]) -> Result<Request, Fault>
    ensures { result ≡ reopen_request (map (λ f. f.now) fields.now) }
{
    let market = one_number(fields, MARKET)? as u32;
    Ok(Request::Reopen { market })
}

// What stands behind the word of a proposal and its comma.
pub(crate) fn proposed_text(line: &[u8]) -> Option<&[u8]>
    ensures { option_map (λ text. text.now) result ≡ proposed_text line.now }
{
    line.strip_prefix(b"propose,".as_slice())
}

// The place of the first comma.
fn comma_in(text: &[u8]) -> Option<usize>
    ensures place { result ≡ position (λ b. b == 44) text.now }
    ensures inside { IfSome result (λ place. place < length text.now) }
{
    text.iter().position(|byte| *byte == b',')
}

// What is proposed from a place on for the market that a field says.
fn proposed_for(market: NumberRead, from: usize) -> Result<Request, Fault>
    requires { IsWithin MARKET.low MARKET.high market }
    ensures { result ≡ proposed_for from market }
{
    match market {
        NumberRead::NotNumber => Err(Fault::Syntax),
        NumberRead::Outside => Ok(Request::Propose(ProposeRequest { market: None, from })),
        NumberRead::Value(market) => Ok(Request::Propose(ProposeRequest {
            market: Some(market as u32),
            from,
        })),
    }
}

// What is proposed behind the word and its comma.
pub(crate) fn propose_request(text: &[u8]) -> Result<Request, Fault>
    ensures { result ≡ propose_request text.now }
{
    match comma_in(text) {
        Some(place) => proposed_for(number(&text[..place], MARKET.low, MARKET.high), place + 9),
        None => Err(Fault::Syntax),
    }
}
