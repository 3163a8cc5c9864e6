//! The words of sides, as commands and replies have them.
ghost use Rattle.std.specs.Prelude.{◌≡◌};
ghost use Rattle.form.specs.Sides.{side_word};

use crate::orders::Side;

/// `buy` or `sell`.
pub fn word_of(side: Side) -> &'static str
    ensures { result.now ≡ side_word side }
{
    match side {
        Side::Buy => "buy",
        Side::Sell => "sell",
    }
}
