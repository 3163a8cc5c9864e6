// Orders that are drawn, and their lines.
ghost use Rattle.std.specs.Prelude.{◌≡◌, IfOk, string_bytes};
ghost use Rattle.demo_run.specs.Draws.{after};
ghost use Rattle.demo_run.specs.Orders.{side_of, kind_of, weights_of, strike_step, order_from, kind_text, weights_text, option_text, terms_text, order_line};

use crate::draws::Draws;
use command_text::Kind;
use form::{Side, word_of};
use std::alloc::{AllocError, Global};

// Which of the two underlyings an option is on.
#[derive(Clone, Copy)]
pub(crate) enum Weights {
    First,
    Second,
    Both,
}

impl Weights {
    // The least distance of two strikes.
    fn strike_step(self) -> u32
        ensures { result ≡ strike_step self }
    {
        match self {
            Weights::First | Weights::Second => 100,
            Weights::Both => 200,
        }
    }

    fn text(self) -> &'static str
        ensures { result.now ≡ weights_text self }
    {
        match self {
            Weights::First => "1,0",
            Weights::Second => "0,1",
            Weights::Both => "1,1",
        }
    }
}

fn side_of(draw: u32) -> Side
    ensures { result ≡ side_of draw }
{
    if draw == 0 { Side::Buy } else { Side::Sell }
}

fn kind_of(draw: u32) -> Kind
    ensures { result ≡ kind_of draw }
{
    if draw == 0 { Kind::Call } else { Kind::Put }
}

fn weights_of(draw: u32) -> Weights
    ensures { result ≡ weights_of draw }
{
    match draw {
        0 => Weights::First,
        1 => Weights::Second,
        _ => Weights::Both,
    }
}

fn kind_text(kind: Kind) -> &'static str
    ensures { result.now ≡ kind_text kind }
{
    match kind {
        Kind::Call => "call",
        Kind::Put => "put",
    }
}

// An order in the market on two underlyings.
#[derive(Clone, Copy)]
pub(crate) struct DrawnOrder {
    pub(crate) account: u32,
    pub(crate) side: Side,
    pub(crate) kind: Kind,
    pub(crate) weights: Weights,
    pub(crate) strike: u32,
    pub(crate) price: u32,
    pub(crate) quantity: u32,
}

impl DrawnOrder {
    // The order of the next seven draws.
    pub(crate) fn draw(draws: &mut Draws) -> Self
        ensures value { result ≡ order_from draws.old.state }
        ensures state { draws.new.state ≡ after 7 draws.old.state }
    {
        let account = 1 + draws.draw(40);
        let side = side_of(draws.draw(2));
        let kind = kind_of(draws.draw(2));
        let weights = weights_of(draws.draw(3));
        DrawnOrder {
            account,
            side,
            kind,
            weights,
            strike: (8 + draws.draw(5)) * weights.strike_step(),
            price: 20 + draws.draw(400),
            quantity: 1 + draws.draw(10),
        }
    }

    // Who trades which option.
    fn option_text(&self, alloc: Global) -> Result<String, AllocError>
        ensures { IfOk result (λ text. string_bytes text ≡ option_text self.now) }
    {
        let side = word_of(self.side);
        let account = self.account;
        let kind = kind_text(self.kind);
        let strike = self.strike;
        format!(in alloc; "{side},{account},1,{kind},{strike}")
    }

    // At which price, how many, and on which underlyings.
    fn terms_text(&self, alloc: Global) -> Result<String, AllocError>
        ensures { IfOk result (λ text. string_bytes text ≡ terms_text self.now) }
    {
        let price = self.price;
        let quantity = self.quantity;
        let weights = self.weights.text();
        format!(in alloc; ",{price},{quantity},{weights}\n")
    }

    // Its line, with the line feed.
    pub(crate) fn line(&self, alloc: Global) -> Result<String, AllocError>
        ensures { IfOk result (λ text. string_bytes text ≡ order_line self.now) }
    {
        let mut text = self.option_text(alloc)?;
        text.push_str(&self.terms_text(alloc)?)?;
        Ok(text)
    }
}
