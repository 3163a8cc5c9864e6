//! Bundles of options: what an order buys or sells.

ghost use Rattle.std.specs.Prelude.{◌≡◌, ◌≤◌, All, drop, length, take};
ghost use Rattle.form.specs.Legs.{IsCounted, IsFiller};

use crate::legs::Leg;

/// One to four legs, of which the first `size` count. Those past them have count 0 and the form of
/// count 2 whose entries are all 0, so that equal lists of legs are equal bundles. The legs of an
/// order of a market are on the same underlyings; those of an order that is read in a reply line
/// may have forms of different counts.
#[derive(Clone, Copy, Debug, PartialEq, Eq)]
pub struct Bundle {
    pub size: u8,
    pub legs: [Leg; 4],
    ghost size_in_range: { (1 ≤ size) × (size ≤ 4) },
    ghost four_legs: { length legs ≡ 4 },
    ghost counted: { All IsCounted (take size legs) },
    ghost filled_up: { All IsFiller (drop size legs) },
}
